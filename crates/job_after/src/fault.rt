//! Why two circuits aren't compared behind the rows of a stimulus.

use cycle_search::SearchError;
use job_circuit::replay::ReplayError;
use sec_base::{NoMemory, Side, Word, Words};
use sec_setup::SetupError;

/// Why two circuits aren't compared.
#[derive(Drop)]
pub enum AfterFault {
    /// The first name of the stimulus that is an input of neither circuit.
    Unknown(Word),
    /// The first input that both circuits have, in the first one's order, that the stimulus lacks.
    Missing(Word),
    /// The first name that one circuit has and the other lacks.
    Interface(Word),
    /// Where all cycles are to be compared: the names of the latches of a cycle of this circuit, each read by the next, the last by the
    /// first, beginning with the least name in byte order; A comes first.
    Cyclic(Side, Words),
    /// This circuit, as it begins behind the rows, is too large for the comparison.
    TooLarge(Side),
    /// Memory was wanted and couldn't be had.
    NoMemory,
}

impl From<NoMemory> for AfterFault {
    ghost use Rattle.std.specs.Prelude.{◌≡◌};
    ghost use Rattle.job_after.specs.declared.fault.AfterFault.TheVariants.{NoMemory};

    ghost from_gives = { λ _ e. e ≡ NoMemory };

    fn from(_error: NoMemory) -> AfterFault {
        AfterFault::NoMemory
    }
}

impl From<SearchError> for AfterFault {
    ghost use Rattle.std.specs.Prelude.{◌≡◌};
    ghost use Rattle.job_after.specs.Ends.{search_fault};

    ghost from_gives = { λ s e. e ≡ search_fault s };

    fn from(error: SearchError) -> AfterFault {
        match error {
            SearchError::Interface(name) => AfterFault::Interface(name),
            SearchError::TooLarge(side) => AfterFault::TooLarge(side),
            SearchError::NoMemory => AfterFault::NoMemory,
        }
    }
}

impl From<SetupError> for AfterFault {
    ghost use Rattle.std.specs.Prelude.{◌≡◌};
    ghost use Rattle.job_after.specs.Last.{setup_fault};

    ghost from_gives = { λ s e. e ≡ setup_fault s };

    fn from(error: SetupError) -> AfterFault {
        match error {
            SetupError::Interface(name) => AfterFault::Interface(name),
            SetupError::Cyclic(side, names) => AfterFault::Cyclic(side, names),
            _ => AfterFault::NoMemory,
        }
    }
}

impl From<ReplayError> for AfterFault {
    ghost use Rattle.std.specs.Prelude.{◌≡◌};
    ghost use Rattle.job_after.specs.Ends.{header_fault};

    ghost from_gives = { λ s e. e ≡ header_fault s };

    fn from(error: ReplayError) -> AfterFault {
        match error {
            ReplayError::Unknown(name) => AfterFault::Unknown(name),
            ReplayError::Missing(name) => AfterFault::Missing(name),
            ReplayError::NoMemory => AfterFault::NoMemory,
        }
    }
}
