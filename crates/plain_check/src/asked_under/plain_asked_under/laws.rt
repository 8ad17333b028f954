//! What is found of a pair under an assumption. None of these functions does anything: each contract is a law.

ghost use Rattle.plain_check.specs.asked_under.plain_asked_under.Laws.{PairsFitUnder, DifferencesShowUnder};

/// What the plain form asks of a pair, put under an assumption, are queries of the graph, and what is found of them is true of the pair
/// under the assumption.
pub fn pairs_fit_under()
    ensures { PairsFitUnder }
{}

/// And a difference's sequence, with the meeting row in each cycle that no variable of both sides reaches, is a witness under the
/// assumption.
pub fn differences_show_under()
    ensures { DifferencesShowUnder }
{}
