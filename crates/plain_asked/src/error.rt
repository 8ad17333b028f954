//! Why two circuits aren't compared.

use sec_base::{NoMemory, Side};

/// Why two circuits aren't compared in the plain form.
#[derive(Drop)]
pub enum PlainError {
    /// The unfoldings of this circuit's outputs weigh more than 2,000,000 together; A comes first.
    TooLarge(Side),
    /// Memory was wanted and couldn't be had.
    NoMemory,
}

impl From<NoMemory> for PlainError {
    ghost use Rattle.std.specs.Prelude.{◌≡◌};
    ghost use Rattle.plain_asked.specs.declared.error.PlainError.TheVariants.{NoMemory};

    ghost from_gives = { λ _ e. e ≡ NoMemory };

    fn from(_error: NoMemory) -> PlainError {
        PlainError::NoMemory
    }
}
