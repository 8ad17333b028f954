//! Why pairs aren't asked about.

use aig::{NoMemory, Side};
use std::alloc::AllocFailed;

/// Why pairs aren't asked about.
#[derive(Drop)]
pub enum EventFormError {
    /// More than 10,000 event nodes are reached.
    TooManyEvents,
    /// What the unfoldings of one circuit visit weighs more than 2,000,000.
    TooLarge(Side),
    /// Memory was wanted.
    NoMemory,
}

impl From<NoMemory> for EventFormError {
    ghost use Rattle.std.specs.Prelude.{◌≡◌};
    ghost use Rattle.event_form.specs.declared.error.EventFormError.TheVariants as form_error;

    ghost from_gives = { λ _ e. e ≡ form_error.NoMemory };

    fn from(_error: NoMemory) -> EventFormError {
        EventFormError::NoMemory
    }
}

impl<T: Drop> From<AllocFailed<T>> for EventFormError {
    ghost use Rattle.std.specs.Prelude.{◌≡◌};
    ghost use Rattle.event_form.specs.declared.error.EventFormError.TheVariants as form_error;

    ghost from_gives = { λ _ e. e ≡ form_error.NoMemory };

    fn from(_error: AllocFailed<T>) -> EventFormError {
        EventFormError::NoMemory
    }
}
