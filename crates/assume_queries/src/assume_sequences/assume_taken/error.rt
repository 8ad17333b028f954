//! Why a circuit isn't taken as an assumption.

use assume_laws::assume_shape::ShapeFault;
use cbf_unfold::unfold_places::UnfoldError;
use pair_decide::SameBy;
use sec_base::NoMemory;

/// Why a circuit isn't taken as an assumption.
#[derive(Drop)]
pub enum TakeError {
    /// The first fault of its shape, or its output weighs more than 2,000,000.
    Fault(ShapeFault),
    /// No row of inputs meets it, and how that was found.
    Vacuous(SameBy),
    /// Memory was wanted and couldn't be had.
    NoMemory,
}

impl From<NoMemory> for TakeError {
    ghost use Rattle.std.specs.Prelude.{◌≡◌};
    ghost use Rattle.assume_queries.specs.declared.assume_sequences.assume_taken.error.TakeError.TheVariants.{NoMemory};

    ghost from_gives = { λ _ e. e ≡ NoMemory };

    fn from(_error: NoMemory) -> TakeError {
        TakeError::NoMemory
    }
}

impl From<UnfoldError> for TakeError {
    ghost use Rattle.std.specs.Prelude.{◌≡◌};
    ghost use Rattle.assume_queries.specs.assume_sequences.assume_taken.Refusals.{refusal_of};

    ghost from_gives = { λ u e. e ≡ refusal_of u };

    fn from(error: UnfoldError) -> TakeError {
        match error {
            UnfoldError::TooLarge => TakeError::Fault(ShapeFault::TooLarge),
            UnfoldError::NoMemory => TakeError::NoMemory,
        }
    }
}
