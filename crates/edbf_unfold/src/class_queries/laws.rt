//! The laws. None of these functions does anything: each contract is a law, by the definitions that the contracts of the working calls cite.

ghost use Rattle.edbf_unfold.specs.class_queries.Laws.{EnableLitsAreFunctions, EqualLitsAreTwins, SameIsEqual, DifferenceTellsApart, SameIsAlways, DifferenceIsOff, FunctionsStay, FunctionsGrow};

/// The literals of a latch's enable and of its care have in each frame their meaning where both circuits stand side by side.
pub fn enable_lits_are_functions()
    ensures { EnableLitsAreFunctions }
{}

/// Latches whose enables have one literal, and whose cares have one, have twin enables: they belong to one class, and no query is
/// needed.
pub fn equal_lits_are_twins()
    ensures { EqualLitsAreTwins }
{}

/// Where the query of two enables is the same, the enables are equal wherever both have care.
pub fn same_is_equal()
    ensures { SameIsEqual }
{}

/// Where it differs, the assignment is a frame with care for both in which the enables differ.
pub fn difference_tells_apart()
    ensures { DifferenceTellsApart }
{}

/// Where the query of an enable against `always` is the same, the enable is 1 wherever it has care.
pub fn same_is_always()
    ensures { SameIsAlways }
{}

/// Where it differs, the assignment is a frame with care in which the enable is 0.
pub fn difference_is_off()
    ensures { DifferenceIsOff }
{}

/// What literals say of the enables of the latches that were taken stays so where the next latch is given its class, and so does what
/// they say of the enable of that latch itself.
pub fn functions_stay()
    ensures { FunctionsStay }
{}

/// What literals say of an enable stays so while the event graph grows.
pub fn functions_grow()
    ensures { FunctionsGrow }
{}
