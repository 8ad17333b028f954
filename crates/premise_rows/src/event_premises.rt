//! Texts that meet the premise of what is promised of comparisons in the event mode. None of these functions does anything: each contract is an example.

ghost use Rattle.premise_rows.specs.event_premises.Premises.{LoadsAreComparable, RetimedAreComparable, TogglesAreComparable};

/// Two latches with load enables of their own, and the same by other rows.
pub fn loads_are_comparable()
    ensures { LoadsAreComparable }
{}

/// A latch that toggles, where latches may be cut open.
pub fn toggles_are_comparable()
    ensures { TogglesAreComparable }
{}

/// An `and` with a latch behind it, and the same with a latch at each input.
pub fn retimed_are_comparable()
    ensures { RetimedAreComparable }
{}
