//! Why two circuits can't be compared.

use crate::ports::{NoMemory, Side, Word, Words};

/// Why two circuits aren't set up for a comparison.
#[derive(Drop)]
pub enum SetupError {
    /// The first name that one circuit has and the other lacks, in the order A's inputs missing in B, B's in A, A's outputs
    /// missing in B, B's in A.
    Interface(Word),
    /// The names of the latches of a cycle of this circuit's latch graph, each read by the next, the last by the first, beginning
    /// with the least name in byte order; A comes first.
    Cyclic(Side, Words),
    /// The names of the latches of a cycle of this circuit that no latch breaks that both circuits have under one name, in the same
    /// form, where latches may be cut open; A comes first.
    Unpaired(Side, Words),
    /// Memory was wanted and couldn't be had.
    NoMemory,
}

impl From<NoMemory> for SetupError {
    ghost use Rattle.std.specs.Prelude.{◌≡◌};
    ghost use Rattle.sec_setup.specs.declared.error.SetupError.TheVariants.{NoMemory};

    ghost from_gives = { λ _ e. e ≡ NoMemory };

    fn from(_error: NoMemory) -> SetupError {
        SetupError::NoMemory
    }
}
