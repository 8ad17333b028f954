//! Why a text is refused.

ghost use Rattle.std.specs.Prelude.{◌≡◌};
ghost use Rattle.blif_read.specs.declared.error.ReadError.TheVariants as read;

use crate::blif_lines::{NoMemory, Word};

/// What is wrong with a line.
#[derive(Drop)]
pub enum ReadKind {
    /// A word that this reader knows and does not read, or the type of a latch that is not clocked by an edge.
    Unsupported(Word),
    /// A first token that begins with a dot and is no word of the format.
    UnknownWord,
    /// No model is open, or, with line 0, the text has no model.
    NoModel,
    /// The number of tokens after the word is not one that the word takes.
    BadCount,
    /// A row of a cover whose tokens do not fit its `.names`.
    BadRow,
    /// A row of a cover whose output differs from the first row's.
    MixedCover,
    /// The type of a latch is none of `re`, `fe`, `ah`, `al` and `as`.
    BadLatchType,
    /// The initial value of a latch is none of `0`, `1`, `2` and `3`.
    BadInit,
    /// A pair of a `.subckt` has no `=`, or nothing on one side of its first `=`.
    BadPair,
    /// The name of a model was used before.
    DuplicateModel,
    /// A name is already an input, or already an output, of the model.
    DuplicatePort,
    /// A token after the word has more than 4,096 bytes.
    NameTooLong,
    /// A row that does not follow a `.names` or another row.
    StrayRow,
    /// Outside comments the line has a byte below 32 other than a tab, or the byte 127.
    ControlByte,
}

/// Why a text is no design.
#[derive(Drop)]
pub enum ReadError {
    /// The first faulty line, by the number of its first physical line from 1, and what is wrong
    /// with it. Line 0 with `NoModel` stands for a text without a model.
    At { line: u32, kind: ReadKind },
    /// Memory was wanted and could not be had.
    NoMemory,
}

impl From<NoMemory> for ReadError {
    ghost from_gives = { λ _ e. e ≡ read.NoMemory };

    fn from(_error: NoMemory) -> ReadError {
        ReadError::NoMemory
    }
}
