//! What an outcome that fits two nets in the event form says of their circuits. None of these functions does anything: each contract is a law.

ghost use Rattle.event_setup.specs.event_meaning.Laws.{AnswersAreExact, CutOutcomesDiffer, DifferentOutcomesDiffer, EqualOutcomesAgree, UnshownOutcomesAreFramed};

/// Equal says that the circuits agree in the event mode, and onward over the exposed latches.
pub fn equal_outcomes_agree()
    ensures { EqualOutcomesAgree }
{}

/// The sequence of a difference makes the named output differ in all runs.
pub fn different_outcomes_differ()
    ensures { DifferentOutcomesDiffer }
{}

/// The sequence of a pair that isn't shown makes it differ in all runs of the cut circuits.
pub fn cut_outcomes_differ()
    ensures { CutOutcomesDiffer }
{}

/// The frame of a pair that isn't shown has care for both sides and gives them the printed values, which differ.
pub fn unshown_outcomes_are_framed()
    ensures { UnshownOutcomesAreFramed }
{}

/// A pair that isn't at the limit is equal exactly where no frame with care for both sides makes them differ; else it is different exactly where
/// no latch is exposed and it reaches class 0 alone.
pub fn answers_are_exact()
    ensures { AnswersAreExact }
{}
