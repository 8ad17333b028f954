//! What an outcome says under an assumption. None of these functions does anything: each contract is a law.

ghost use Rattle.plain_check.specs.asked_under.plain_asked_under.under_meaning.Laws.{EqualSaysUnder, DifferentShowsUnder, NotShownUnder};

/// Equal says that the circuits agree in the runs that meet the assumption, and onward over the exposed latches.
pub fn equal_says_under()
    ensures { EqualSaysUnder }
{}

/// The sequence of a difference meets the assumption in each of its cycles, and makes the named output differ in all runs.
pub fn different_shows_under()
    ensures { DifferentShowsUnder }
{}

/// That of what isn't shown meets it, too, and makes the named pair of the cut circuits differ in all runs.
pub fn not_shown_under()
    ensures { NotShownUnder }
{}
