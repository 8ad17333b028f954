//! Why the reading of a text ends early, before the number of the line is put to it.

ghost use Rattle.std.specs.Prelude.{◌≡◌};
ghost use Rattle.blif_read.specs.declared.stop.Stop.TheVariants as stop;

use crate::blif_lines::NoMemory;
use crate::error::ReadKind;
use std::alloc::{AllocError, AllocFailed};

/// Why the reading ends early.
#[derive(Drop)]
pub(crate) enum Stop {
    NoMemory,
    Fault(ReadKind),
}

impl From<NoMemory> for Stop {
    ghost from_gives = { λ _ e. e ≡ stop.NoMemory };

    fn from(_error: NoMemory) -> Stop {
        Stop::NoMemory
    }
}

impl From<AllocError> for Stop {
    ghost from_gives = { λ _ e. e ≡ stop.NoMemory };

    fn from(_error: AllocError) -> Stop {
        Stop::NoMemory
    }
}

impl<T: Drop> From<AllocFailed<T>> for Stop {
    ghost from_gives = { λ _ e. e ≡ stop.NoMemory };

    fn from(_error: AllocFailed<T>) -> Stop {
        Stop::NoMemory
    }
}

/// A refusal of this kind.
pub(crate) fn fault(kind: ReadKind) -> Result<(), Stop>
    ensures { result ≡ Err (stop.Fault kind) }
{
    Err(Stop::Fault(kind))
}
