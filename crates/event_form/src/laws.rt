//! What follows from the answers of the event form. None of these functions does anything: each contract is a law.

ghost use Rattle.event_form.specs.Laws.{AnswersFit, DifferencesAreFrames, EqualPairsAgree};

/// The answer to what is asked of a pair fits the pair: equal says that the event functions agree in each frame with care for both, different and
/// not shown that they differ in one.
pub fn answers_fit()
    ensures { AnswersFit }
{}

/// Where a pair differs, the bits of its query's variables are a frame that has care for both sides, in which they have different values.
pub fn differences_are_frames()
    ensures { DifferencesAreFrames }
{}

/// Where all pairs of outputs are equal, the circuits agree in the event mode.
pub fn equal_pairs_agree()
    ensures { EqualPairsAgree }
{}
