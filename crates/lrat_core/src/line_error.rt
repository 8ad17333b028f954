//! Why a line isn't accepted.

ghost use Rattle.std.specs.Prelude.{◌≡◌};

use sec_base::NoMemory;
use text_numbers::TextKind;

/// Why one line isn't accepted.
#[derive(Clone, Copy)]
pub enum LineError {
    /// What is first wrong with it: `BadId`, `NegativeHint`, `BadHint`, `NotUnit` or `NoConflict`.
    Fault(TextKind),
    /// Memory was wanted and couldn't be had.
    NoMemory,
}

impl From<NoMemory> for LineError {
    ghost use Rattle.std.specs.Prelude.{◌≡◌};
    ghost use Rattle.lrat_core.specs.declared.line_error.LineError.{LineError};

    ghost from_gives = { λ _ e. e ≡ LineError.NoMemory };

    fn from(_error: NoMemory) -> LineError {
        LineError::NoMemory
    }
}
