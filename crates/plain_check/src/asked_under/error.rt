//! Why two circuits aren't compared under an assumption.

use assume_queries::UnderError;
use plain_asked::PlainError;
use reset_form::reset_functions::ResetError;
use sec_base::{NoMemory, Side};

/// Why two circuits aren't compared under an assumption: in the plain form, or from their initial values.
#[derive(Drop)]
pub enum CompareUnderError {
    /// The unfoldings of this circuit's outputs weigh more than 2,000,000 together, from the initial values in all cycles up to their
    /// depths; A comes first.
    TooLarge(Side),
    /// The assumption weighs more than 2,000,000 at all places of the pairs' variables, with one more for each place of each pair, from
    /// the initial values in each cycle.
    AssumptionTooLarge,
    /// Memory was wanted and couldn't be had.
    NoMemory,
}

impl From<NoMemory> for CompareUnderError {
    ghost use Rattle.std.specs.Prelude.{◌≡◌};
    ghost use Rattle.plain_check.specs.declared.asked_under.error.CompareUnderError.TheVariants.{NoMemory};

    ghost from_gives = { λ _ e. e ≡ NoMemory };

    fn from(_error: NoMemory) -> CompareUnderError {
        CompareUnderError::NoMemory
    }
}

impl From<PlainError> for CompareUnderError {
    ghost use Rattle.std.specs.Prelude.{◌≡◌};
    ghost use Rattle.plain_check.specs.asked_under.plain_asked_under.Refusals.{refusal_of};

    ghost from_gives = { λ p e. e ≡ refusal_of p };

    fn from(error: PlainError) -> CompareUnderError {
        match error {
            PlainError::TooLarge(side) => CompareUnderError::TooLarge(side),
            PlainError::NoMemory => CompareUnderError::NoMemory,
        }
    }
}

impl From<ResetError> for CompareUnderError {
    ghost use Rattle.std.specs.Prelude.{◌≡◌};
    ghost use Rattle.plain_check.specs.asked_under.reset_asked_under.Refusals.{refusal_of};

    ghost from_gives = { λ r e. e ≡ refusal_of r };

    fn from(error: ResetError) -> CompareUnderError {
        match error {
            ResetError::TooLarge(side) => CompareUnderError::TooLarge(side),
            ResetError::NoMemory => CompareUnderError::NoMemory,
        }
    }
}

impl From<UnderError> for CompareUnderError {
    ghost use Rattle.std.specs.Prelude.{◌≡◌};
    ghost use Rattle.plain_check.specs.asked_under.Refusals.{refusal_under};

    ghost from_gives = { λ u e. e ≡ refusal_under u };

    fn from(error: UnderError) -> CompareUnderError {
        match error {
            UnderError::TooLarge => CompareUnderError::AssumptionTooLarge,
            UnderError::NoMemory => CompareUnderError::NoMemory,
        }
    }
}
