//! The laws. None of these functions does anything: each contract is a law, by the definitions that the contracts of the working calls cite.

ghost use Rattle.event_form.specs.event_agreement.Laws.{PairsAreQueries, PairQueriesGrow, SameIsEqualEvents, DifferenceIsFrame, DifferenceIsLeast, SameQueriesAgree, SameCutQueriesAgree};

/// The query of a pair is one over the event graph: its variables are all that its literals read.
pub fn pairs_are_queries()
    ensures { PairsAreQueries }
{}

/// It stays the query of the pair while the event graph grows.
pub fn pair_queries_grow()
    ensures { PairQueriesGrow }
{}

/// Where the sides of a pair's query agree wherever its care holds, the event functions agree in each frame with care for both.
pub fn same_is_equal_events()
    ensures { SameIsEqualEvents }
{}

/// Where they differ, the bits of the query's variables are a frame with care for both in which the event functions differ.
pub fn difference_is_frame()
    ensures { DifferenceIsFrame }
{}

/// Up to 16 variables these bits are the least ones.
pub fn difference_is_least()
    ensures { DifferenceIsLeast }
{}

/// Where the sides of each pair's query agree wherever its care holds, the circuits agree in the event mode.
pub fn same_queries_agree()
    ensures { SameQueriesAgree }
{}

/// With exposed latches, where that holds of each pair of the circuits as they are cut, the circuits agree in the event mode, and agree onward.
pub fn same_cut_queries_agree()
    ensures { SameCutQueriesAgree }
{}
