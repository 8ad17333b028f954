//! Why a signal isn't unfolded.

use flat_net::NoMemory;
use std::alloc::AllocFailed;
use thiserror::Error;

/// Why a signal isn't unfolded.
#[derive(Debug, Drop, Error)]
pub enum EventUnfoldError {
    /// More than 10,000 event nodes are reached.
    #[error("too many events")]
    TooManyEvents,
    /// The places that the unfoldings visit weigh more than 2,000,000 together.
    #[error("the unfolding is too large")]
    TooLarge,
    /// Memory was wanted.
    #[error("out of memory")]
    NoMemory,
}

impl From<NoMemory> for EventUnfoldError {
    ghost use Rattle.std.specs.Prelude.{◌≡◌};
    ghost use Rattle.event_nodes.specs.declared.error.EventUnfoldError.TheVariants as unfold_error;

    ghost from_gives = { λ _ e. e ≡ unfold_error.NoMemory };

    fn from(_error: NoMemory) -> EventUnfoldError {
        EventUnfoldError::NoMemory
    }
}

impl<T: Drop> From<AllocFailed<T>> for EventUnfoldError {
    ghost use Rattle.std.specs.Prelude.{◌≡◌};
    ghost use Rattle.event_nodes.specs.declared.error.EventUnfoldError.TheVariants as unfold_error;

    ghost from_gives = { λ _ e. e ≡ unfold_error.NoMemory };

    fn from(_error: AllocFailed<T>) -> EventUnfoldError {
        EventUnfoldError::NoMemory
    }
}
