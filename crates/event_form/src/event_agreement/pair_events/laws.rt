//! What was counted is within its numbers. This function does nothing: its contract is a law.

ghost use Rattle.event_form.specs.event_agreement.pair_events.Within.{CountedIsWithin};

/// Where what was counted is what some starts visit, and it is within the limits, so is all that these starts visit and reach.
pub fn counted_is_within()
    ensures { CountedIsWithin }
{}
