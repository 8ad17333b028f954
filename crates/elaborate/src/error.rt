//! Why a design is refused.

ghost use Rattle.std.specs.Prelude.{◌≡◌};
ghost use Rattle.elaborate.specs.declared.error.FlatError.TheVariants as flat;

use blif_read::{NoMemory, Word, Words};
use std::alloc::AllocError;

/// Why a design is no sound circuit. Names of signals are flat names: `m#k#` stands before a name for each instance
/// around it, where m is the instance's model and k its number among the instances of the model around it.
#[derive(Drop)]
pub enum FlatError {
    /// An instance of a model that the design does not have; the model's name.
    UnknownModel(Word),
    /// An instance of a model inside itself; the model's name.
    Recursive(Word),
    /// A pair names a signal that is no port of the instance's model.
    UnknownFormal(Word),
    /// A pair names a port that an earlier pair of the instance names.
    FormalTwice(Word),
    /// The first input or clock of an instance without a pair.
    OpenInput(Word),
    /// The first signal that is driven again.
    TwoDrivers(Word),
    /// The first signal that is read and not driven.
    Undriven(Word),
    /// The second of two clock nets.
    TwoClocks(Word),
    /// The first latch whose edge differs from that of the first latch with an edge.
    TwoEdges(Word),
    /// The clock net, where a gate or a latch drives it.
    GatedClock(Word),
    /// The first gate or latch, or else the first output of the main model, that reads the clock net.
    ClockRead(Word),
    /// A loop of signals, each read by what drives the next, and the last by what drives the first.
    Loop(Words),
    /// An instance would stand at level 65; the name of its model.
    TooDeep(Word),
    /// More than 400,000 flat statements or 4,000,000 written places.
    TooMany,
    /// A flat name of more than 4,096 bytes.
    LongName,
    /// Memory was wanted and could not be had.
    NoMemory,
}

impl From<NoMemory> for FlatError {
    ghost from_gives = { λ _ e. e ≡ flat.NoMemory };

    fn from(_error: NoMemory) -> FlatError {
        FlatError::NoMemory
    }
}

impl From<AllocError> for FlatError {
    ghost from_gives = { λ _ e. e ≡ flat.NoMemory };

    fn from(_error: AllocError) -> FlatError {
        FlatError::NoMemory
    }
}
