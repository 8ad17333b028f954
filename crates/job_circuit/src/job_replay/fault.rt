//! Why two circuits aren't run on a stimulus in a mode.

use crate::replay::ReplayError;
use pair_decide::Proof;
use sec_base::{NoMemory, Side, Word};

/// Why two circuits aren't run on a stimulus in a mode.
#[derive(Drop)]
pub enum ReplayFault {
    /// The first name that one circuit has and the other lacks, in the order A's inputs missing in B, B's in A, A's outputs missing
    /// in B, B's in A.
    Interface(Word),
    /// A latch of this circuit is in its own cone, and that cone weighs more than 2,000,000.
    TooLarge(Side),
    /// The latch of this circuit and name whose query wasn't decided within the limit of conflicts, and the query's proof of that.
    Limit(Side, Word, Proof),
    /// The first name of the stimulus that is neither an input of one of the circuits nor a latch of both.
    Unknown(Word),
    /// The first input of both circuits, in A's order, that the stimulus lacks.
    Missing(Word),
    /// Memory was wanted and couldn't be had.
    NoMemory,
}

impl From<NoMemory> for ReplayFault {
    ghost use Rattle.std.specs.Prelude.{◌≡◌};
    ghost use Rattle.job_circuit.specs.declared.job_replay.fault.ReplayFault.TheVariants.{NoMemory};

    ghost from_gives = { λ _ e. e ≡ NoMemory };

    fn from(_error: NoMemory) -> ReplayFault {
        ReplayFault::NoMemory
    }
}

impl From<ReplayError> for ReplayFault {
    ghost use Rattle.std.specs.Prelude.{◌≡◌};
    ghost use Rattle.job_circuit.specs.job_replay.Modes.{fault_of};

    ghost from_gives = { λ error e. e ≡ fault_of error };

    fn from(error: ReplayError) -> ReplayFault {
        match error {
            ReplayError::Unknown(name) => ReplayFault::Unknown(name),
            ReplayError::Missing(name) => ReplayFault::Missing(name),
            ReplayError::NoMemory => ReplayFault::NoMemory,
        }
    }
}
