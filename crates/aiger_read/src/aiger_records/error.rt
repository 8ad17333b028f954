//! Why a file is refused.

ghost use Rattle.std.specs.Prelude.{◌≡◌};
ghost use Rattle.aiger_read.specs.declared.aiger_records.error.AigerError.TheVariants as aiger;
ghost use Rattle.aiger_read.specs.declared.aiger_records.error.Stop.TheVariants as stop;

use sec_base::NoMemory;
use std::alloc::{AllocError, AllocFailed};

/// What is wrong with a record.
#[derive(Clone, Copy)]
pub enum AigerKind {
    /// The header isn't of its form, or its greatest variable doesn't fit its counts.
    BadHeader,
    /// A number of the header that counts properties isn't 0.
    Properties,
    /// The greatest variable or the number of outputs is above 400,000.
    TooMany,
    /// The record is cut off or isn't of its form.
    BadLine,
    /// A literal is above that of the greatest variable, or a defined literal is odd or 0.
    BadLiteral,
    /// The record defines a variable that was defined before.
    TwoDrivers,
    /// The reset of a latch is none of 0, 1 and its own literal.
    BadReset,
    /// The first difference of a gate is 0 or above its literal, or the second is above the first operand.
    BadDelta,
    /// The symbol names nothing, or what was named before, or its name isn't one.
    BadSymbol,
    /// A used variable isn't defined.
    Undriven,
    /// Two inputs or latches, or two outputs, have one name.
    DuplicateName,
    /// Gates read each other in a loop.
    Loop,
}

/// Why a file is no circuit.
#[derive(Clone, Copy)]
pub enum AigerError {
    /// The first record with a fault, counted from 0, and what is wrong with it. Faults of the whole file are given with
    /// record 0.
    At { place: u32, kind: AigerKind },
    /// Memory was wanted and could not be had.
    NoMemory,
}

impl From<NoMemory> for AigerError {
    ghost from_gives = { λ _ e. e ≡ aiger.NoMemory };

    fn from(_error: NoMemory) -> AigerError {
        AigerError::NoMemory
    }
}

/// Why the reading ends early, before the place of the record is put to it.
#[derive(Clone, Copy)]
pub enum Stop {
    NoMemory,
    Fault(AigerKind),
}

impl From<NoMemory> for Stop {
    ghost from_gives = { λ _ e. e ≡ stop.NoMemory };

    fn from(_error: NoMemory) -> Stop {
        Stop::NoMemory
    }
}

impl From<AllocError> for Stop {
    ghost from_gives = { λ _ e. e ≡ stop.NoMemory };

    fn from(_error: AllocError) -> Stop {
        Stop::NoMemory
    }
}

impl<T: Drop> From<AllocFailed<T>> for Stop {
    ghost from_gives = { λ _ e. e ≡ stop.NoMemory };

    fn from(_error: AllocFailed<T>) -> Stop {
        Stop::NoMemory
    }
}
