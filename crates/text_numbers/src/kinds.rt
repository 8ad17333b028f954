//! What can be wrong with a text of clauses, or with a text that shows that they can't be met.

ghost use Rattle.std.specs.Prelude.{◌≡◌};

use sec_base::NoMemory;

/// What is wrong with a line of a text, or with the text as a whole.
#[derive(Clone, Copy)]
pub enum TextKind {
    /// The first line of a DIMACS text isn't `p cnf V C`, or there is none.
    BadHeader,
    /// A token is no number, or a literal's variable is above that of the header.
    BadNumber,
    /// There are more clauses than the header tells, or fewer, or the last has no end.
    BadCount,
    /// A line of an LRAT text is no addition and no deletion, or a literal's variable is above that of the clauses.
    BadLine,
    /// The number of an added clause isn't above all numbers so far, or a deleted clause isn't live.
    BadId,
    /// A hint is below 0.
    NegativeHint,
    /// A hint names no live clause.
    BadHint,
    /// Two or more literals of a hint's clause aren't false.
    NotUnit,
    /// No hint's clause is false.
    NoConflict,
    /// No line adds the empty clause.
    NoEmpty,
}

/// Why a text isn't accepted.
#[derive(Clone, Copy)]
pub enum TextError {
    /// The number of the first faulty line, from 1, with what is first wrong with it; with line 0 what is wrong with the text as a
    /// whole.
    At { line: u32, kind: TextKind },
    /// Memory was wanted and couldn't be had.
    NoMemory,
}

impl From<NoMemory> for TextError {
    ghost use Rattle.std.specs.Prelude.{◌≡◌};
    ghost use Rattle.text_numbers.specs.declared.kinds.TextError.{TextError};

    ghost from_gives = { λ _ e. e ≡ TextError.NoMemory };

    fn from(_error: NoMemory) -> TextError {
        TextError::NoMemory
    }
}
