//! That the premises of what is promised of comparisons under an assumption are met. The functions do nothing: each contract is an example.

ghost use Rattle.premise_rows.specs.event_assume_rows.assume_rows.SameInputs.{AndMeetsOr, RetimedMeetFromReset};

/// An `and` and an `or` can be compared where both inputs are equal.
pub fn and_meets_or()
    ensures { AndMeetsOr }
{}

/// An `and` with a latch behind it that starts with 0, and the same retimed, can be compared from the initial values where both inputs
/// are equal.
pub fn retimed_meet_from_reset()
    ensures { RetimedMeetFromReset }
{}
