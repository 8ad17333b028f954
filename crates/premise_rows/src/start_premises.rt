//! That the premises of what is promised of comparisons behind a reset sequence are met. The functions do nothing: each contract is an
//! example.

ghost use Rattle.premise_rows.specs.start_premises.Restarted.{CircuitsAgreeBehindRows};
ghost use Rattle.premise_rows.specs.start_premises.Begun.{TextsCanBegin, TextsCanBeReplayed};
ghost use Rattle.premise_rows.specs.start_premises.BegunUnder.{TextsCanBeginUnder, TextsCanBeTiedBehind};

/// Behind one cycle of reset a latch that toggles and the complement of another agree for ever, and a latch that rises agrees with the
/// first in two cycles.
pub fn circuits_agree_behind_rows()
    ensures { CircuitsAgreeBehindRows }
{}

/// Two circuits with a cycle of latches each, and a retiming, can be compared behind a reset sequence.
pub fn texts_can_begin()
    ensures { TextsCanBegin }
{}

/// They can be replayed from what is known of them, by their initial values or behind a reset sequence.
pub fn texts_can_be_replayed()
    ensures { TextsCanBeReplayed }
{}

/// A retiming, and two latches on cycles, can be compared behind a reset sequence where both inputs are equal.
pub fn texts_can_begin_under()
    ensures { TextsCanBeginUnder }
{}

/// The same two pairs can be compared there by ties of signals.
pub fn texts_can_be_tied_behind()
    ensures { TextsCanBeTiedBehind }
{}
