//! A given number of cycles from the initial values, on circuits with cycles of latches or without.

ghost use Rattle.circuit_laws.specs.cycle_laws.Bounded.{EqualUpToAgree, DifferenceInCycle, CyclesAreDecided};

/// Equal functions of each pair in the cycles up to a last one mean agreement in these cycles.
pub fn equal_up_to_agree()
    ensures { EqualUpToAgree }
{}

/// An assignment under which the functions of a pair differ in a cycle gives a sequence and power-ups that make the pair differ there.
pub fn difference_in_cycle()
    ensures { DifferenceInCycle }
{}

/// In nets, each pair has in each cycle two functions, and the circuits agree up to a last cycle exactly where these are equal.
pub fn cycles_are_decided()
    ensures { CyclesAreDecided }
{}
