//! What a choice, or a refusal, means for the two circuits. None of these functions does anything: each contract is a law.

ghost use Rattle.sec_setup.specs.cut_points.expose_pick.Laws.{ChosenIsMinimalCut, RefusedHasNoCut};

/// Where each pair is of latches of one name, the names of the chosen latches are a minimal cut of the two circuits.
pub fn chosen_is_minimal_cut()
    ensures { ChosenIsMinimalCut }
{}

/// Where the pairs are all latches of one name, and a cycle is left without them, no names are a minimal cut.
pub fn refused_has_no_cut()
    ensures { RefusedHasNoCut }
{}
