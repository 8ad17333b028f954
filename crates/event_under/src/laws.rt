//! What the answers of the event form say under an assumption. None of these functions does anything: each contract is a law.

ghost use Rattle.event_under.specs.Laws.{SidesHaveAllVariables, PairsFitUnder, DifferencesShowUnder, AlwaysDifferencesShowUnder, EqualPairsAgreeUnder, EqualCutsAgreeUnder};

/// The variables of a pair's two functions are those of the two and of their cares.
pub fn sides_have_all_variables()
    ensures { SidesHaveAllVariables }
{}

/// The answer to what is asked of a pair under an assumption fits the pair.
pub fn pairs_fit_under()
    ensures { PairsFitUnder }
{}

/// The bits of a difference are those of an assignment of the query's variables that meets its care and makes the sides differ.
pub fn differences_show_under()
    ensures { DifferencesShowUnder }
{}

/// Where the pair reaches class 0 alone, the sequence of a difference makes it differ in all runs, and each of its cycles meets the assumption.
pub fn always_differences_show_under()
    ensures { AlwaysDifferencesShowUnder }
{}

/// Where all pairs of outputs are equal, the circuits agree in the runs that meet the assumption.
pub fn equal_pairs_agree_under()
    ensures { EqualPairsAgreeUnder }
{}

/// With exposed latches, where all pairs of the circuits as they are cut are equal, the circuits agree in these runs, and agree onward.
pub fn equal_cuts_agree_under()
    ensures { EqualCutsAgreeUnder }
{}
