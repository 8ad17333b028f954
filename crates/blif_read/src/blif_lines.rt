//! The logical lines of a BLIF text, and their tokens.
//!
//! Lines are read as the Berkeley Logic Interchange Format has them: `#` begins a comment, and a
//! backslash at a line's end joins the next line to it.

mod bytes;
mod line;
mod logical;
mod physical;
mod tokens;

pub use base_tables::NameTable;
pub use line::RawLine;
pub use logical::Lines;
pub use sec_base::{
    Cover, Duplicate, Edge, Ids, Init, MAX_FILE_BYTES, MAX_LEVELS, MAX_NAME_BYTES, MAX_PLACES,
    MAX_STATEMENTS, NoMemory, Seq, Word, Words, put, put_number,
};
pub use tokens::tokens_of;
