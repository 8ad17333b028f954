//! What an outcome that fits two nets in the event form under an assumption says of their circuits. None of these functions does anything: each
//! contract is a law.

ghost use Rattle.event_setup.specs.event_meaning.event_meaning_under.Laws.{AnswersAreExactUnder, CutOutcomesDifferUnder, DifferentOutcomesDifferUnder, EqualOutcomesAgreeUnder, UnshownOutcomesAreFramedUnder};

/// Equal says that the circuits agree in the event mode in the runs that meet the assumption, and onward over the exposed latches.
pub fn equal_outcomes_agree_under()
    ensures { EqualOutcomesAgreeUnder }
{}

/// The sequence of a difference makes the named output differ in all runs, and meets the assumption in each of its cycles.
pub fn different_outcomes_differ_under()
    ensures { DifferentOutcomesDifferUnder }
{}

/// That of a pair that isn't shown makes it differ in all runs of the cut circuits, and meets the assumption, too.
pub fn cut_outcomes_differ_under()
    ensures { CutOutcomesDifferUnder }
{}

/// The frame of a pair that isn't shown has care for both sides, meets the assumption at each node of their variables, and gives them the printed
/// values, which differ.
pub fn unshown_outcomes_are_framed_under()
    ensures { UnshownOutcomesAreFramedUnder }
{}

/// A pair that isn't at the limit is equal exactly where no frame that has care for both sides and meets the assumption makes them differ; else it is
/// different exactly where no latch is exposed and it reaches class 0 alone.
pub fn answers_are_exact_under()
    ensures { AnswersAreExactUnder }
{}
