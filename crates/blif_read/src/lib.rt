//! Reads a text of the Berkeley Logic Interchange Format (BLIF) as a design.
//!
//! The words and forms are those of the BLIF manual (Berkeley Logic Interchange Format, University
//! of California, Berkeley), in the profile that docs/ describes.
#![tactic(auto)]

pub mod blif_lines;
mod block;
mod design;
mod error;
mod head;
mod names;
mod open_model;
mod reader;
mod rows;
mod statements;
mod stop;

pub use crate::blif_lines::{
    Edge, Ids, Init, MAX_LEVELS, MAX_NAME_BYTES, MAX_PLACES, MAX_STATEMENTS, NameTable, NoMemory,
    Seq, Word, Words, put, put_number,
};
pub use design::{BlifModel, BlifModels, Design, Pair, Pairs, Statement, Statements};
pub use error::{ReadError, ReadKind};
pub use reader::read_design;
