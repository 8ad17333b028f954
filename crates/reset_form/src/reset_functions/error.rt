//! Why two circuits aren't compared.

use sec_base::{NoMemory, Side};

/// Why two circuits aren't compared from their initial values.
#[derive(Drop)]
pub enum ResetError {
    /// The unfoldings of this circuit's outputs, in all cycles up to the pairs' depths, weigh more than 2,000,000 together; A comes
    /// first.
    TooLarge(Side),
    /// Memory was wanted and couldn't be had.
    NoMemory,
}

impl From<NoMemory> for ResetError {
    ghost use Rattle.std.specs.Prelude.{◌≡◌};
    ghost use Rattle.reset_form.specs.declared.reset_functions.error.ResetError.TheVariants.{NoMemory};

    ghost from_gives = { λ _ e. e ≡ NoMemory };

    fn from(_error: NoMemory) -> ResetError {
        ResetError::NoMemory
    }
}
