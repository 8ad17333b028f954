//! A line of a text.

use sec_base::Word;

/// A line of a text, with what continues it, and without comments and the blanks at its end.
#[derive(Drop)]
pub struct RawLine {
    /// The number of its first physical line, from 1.
    pub number: u32,
    /// Its bytes.
    pub bytes: Word,
}
