//! Why two circuits aren't compared under an assumption.

use crate::event_under_form::event_witness_under::UnderError;
use event_form::EventFormError;
use sec_base::Side;

/// Why two circuits aren't compared in the event form under an assumption.
#[derive(Drop)]
pub enum EventUnderError {
    /// More than 10,000 event nodes are reached.
    TooManyEvents,
    /// What the unfoldings of one circuit visit weighs more than 2,000,000.
    TooLarge(Side),
    /// The assumption weighs more than 2,000,000 at all event nodes that have a variable of the pairs, with one more for each node of each pair.
    AssumptionTooLarge,
    /// Memory was wanted.
    NoMemory,
}

impl From<EventFormError> for EventUnderError {
    ghost use Rattle.std.specs.Prelude.{◌≡◌};
    ghost use Rattle.event_under.specs.event_under_form.Refusals.{refusal_of};

    ghost from_gives = { λ p e. e ≡ refusal_of p };

    fn from(error: EventFormError) -> EventUnderError {
        match error {
            EventFormError::TooManyEvents => EventUnderError::TooManyEvents,
            EventFormError::TooLarge(side) => EventUnderError::TooLarge(side),
            EventFormError::NoMemory => EventUnderError::NoMemory,
        }
    }
}

impl From<UnderError> for EventUnderError {
    ghost use Rattle.std.specs.Prelude.{◌≡◌};
    ghost use Rattle.event_under.specs.event_under_form.Refusals.{refusal_under};

    ghost from_gives = { λ u e. e ≡ refusal_under u };

    fn from(error: UnderError) -> EventUnderError {
        match error {
            UnderError::TooLarge => EventUnderError::AssumptionTooLarge,
            UnderError::NoMemory => EventUnderError::NoMemory,
        }
    }
}
