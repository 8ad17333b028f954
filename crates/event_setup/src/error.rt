//! Why it isn't known which latches of two circuits are enabled.

use latch_kinds::Proof;
use sec_base::{NoMemory, Side, Word};

/// Why it isn't known which latches of two circuits are enabled.
#[derive(Drop)]
pub enum RecoveryError {
    /// A latch of this circuit is in its own cone, and that cone weighs more than 2,000,000.
    TooLarge(Side),
    /// The latch of this circuit and name whose query wasn't decided within the limit of conflicts, and the query's proof of that.
    Limit(Side, Word, Proof),
    /// Memory was wanted and couldn't be had.
    NoMemory,
}

impl From<NoMemory> for RecoveryError {
    ghost use Rattle.std.specs.Prelude.{◌≡◌};
    ghost use Rattle.event_setup.specs.declared.error.RecoveryError.TheVariants.{NoMemory};

    ghost from_gives = { λ _ e. e ≡ NoMemory };

    fn from(_error: NoMemory) -> RecoveryError {
        RecoveryError::NoMemory
    }
}
