//! What an outcome from the initial values says under an assumption. None of these functions does anything: each contract is a law.

ghost use Rattle.plain_check.specs.asked_under.plain_asked_under.under_meaning.under_reset_meaning.Laws.{EqualResetsSayUnder, DifferentResetsShowUnder};

/// Equal says that the circuits agree in every cycle of the reset runs that meet the assumption.
pub fn equal_resets_say_under()
    ensures { EqualResetsSayUnder }
{}

/// The sequence of a difference meets the assumption in each of its cycles, and with the power-ups makes the named output differ in all runs;
/// in no earlier cycle does it differ in the reset runs that meet the assumption.
pub fn different_resets_show_under()
    ensures { DifferentResetsShowUnder }
{}
