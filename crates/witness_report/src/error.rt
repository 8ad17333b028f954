//! Why a text is no stimulus.

use sec_base::NoMemory;
use thiserror::Error;

/// Why a stimulus wasn't read. Lines are counted from 1.
#[derive(Debug, Drop, Error)]
pub enum StimError {
    /// The first line isn't `inputs` and then names, each after one blank, each nonempty and each once.
    #[error("line {line}: no header")]
    BadHeader { line: u32 },
    /// The line isn't one digit for each name, or a dash where there are no names.
    #[error("line {line}: no row")]
    BadRow { line: u32 },
    #[error("out of memory")]
    NoMemory,
}

impl From<NoMemory> for StimError {
    ghost use Rattle.std.specs.Prelude.{◌≡◌};
    ghost use Rattle.witness_report.specs.declared.error.StimError.TheVariants as stim_error;

    ghost from_gives = { λ _ e. e ≡ stim_error.NoMemory };

    fn from(_error: NoMemory) -> StimError {
        StimError::NoMemory
    }
}
