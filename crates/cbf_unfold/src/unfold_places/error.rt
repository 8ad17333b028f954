//! Why a signal isn't unfolded.

use flat_net::NoMemory;
use std::alloc::{AllocError, AllocFailed};
use thiserror::Error;

/// Why a signal isn't unfolded.
#[derive(Debug, Drop, Error)]
pub enum UnfoldError {
    /// The places that the unfoldings of all signals so far visit weigh more than 2,000,000 together, in the weight that
    /// `Unfolder::unfold` tells.
    #[error("the unfolding is too large")]
    TooLarge,
    /// Memory was wanted and couldn't be had.
    #[error("out of memory")]
    NoMemory,
}

impl From<NoMemory> for UnfoldError {
    ghost use Rattle.std.specs.Prelude.{◌≡◌};
    ghost use Rattle.cbf_unfold.specs.declared.unfold_places.error.UnfoldError.TheVariants as unfold_error;

    ghost from_gives = { λ _ e. e ≡ unfold_error.NoMemory };

    fn from(_error: NoMemory) -> UnfoldError {
        UnfoldError::NoMemory
    }
}

impl From<AllocError> for UnfoldError {
    ghost use Rattle.std.specs.Prelude.{◌≡◌};
    ghost use Rattle.cbf_unfold.specs.declared.unfold_places.error.UnfoldError.TheVariants as unfold_error;

    ghost from_gives = { λ _ e. e ≡ unfold_error.NoMemory };

    fn from(_error: AllocError) -> UnfoldError {
        UnfoldError::NoMemory
    }
}

impl<T: Drop> From<AllocFailed<T>> for UnfoldError {
    ghost use Rattle.std.specs.Prelude.{◌≡◌};
    ghost use Rattle.cbf_unfold.specs.declared.unfold_places.error.UnfoldError.TheVariants as unfold_error;

    ghost from_gives = { λ _ e. e ≡ unfold_error.NoMemory };

    fn from(_error: AllocFailed<T>) -> UnfoldError {
        UnfoldError::NoMemory
    }
}
