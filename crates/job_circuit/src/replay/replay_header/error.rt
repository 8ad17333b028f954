//! Why two circuits aren't run on a stimulus.

use sec_base::{NoMemory, Word};

/// Why two circuits aren't run on a stimulus.
#[derive(Drop)]
pub enum ReplayError {
    /// The first name of the stimulus that is neither an input of one of the circuits nor a latch of both.
    Unknown(Word),
    /// The first input that both circuits have, in the first one's order, that the stimulus lacks.
    Missing(Word),
    /// Memory was wanted and couldn't be had.
    NoMemory,
}

impl From<NoMemory> for ReplayError {
    ghost use Rattle.std.specs.Prelude.{◌≡◌};
    ghost use Rattle.job_circuit.specs.declared.replay.replay_header.error.ReplayError.TheVariants.{NoMemory};

    ghost from_gives = { λ _ e. e ≡ NoMemory };

    fn from(_error: NoMemory) -> ReplayError {
        ReplayError::NoMemory
    }
}
