//! The header and the records of a file in the AIGER formats `aag` and `aig`, and what is wrong with each.
//!
//! The formats are those of the AIGER format, version 20071012, with the resets of version 1.9.
//!
//! The least parts of a text in the AIGER formats: lines, decimal numbers, and numbers in groups of seven bits.

mod body;
mod cuts;
mod decimals;
mod defined;
mod error;
mod groups;
mod header;
mod record;

pub use body::Taken;
pub use cuts::{Cut, FirstWord, cut_at, first_word, place_of};
pub use decimals::{number_of, numbers_behind};
pub use defined::{Defined, defined_by};
pub use error::{AigerError, AigerKind, Stop};
pub use groups::{PackedNumber, packed};
pub use header::{Form, Header, header_fault, header_of};
pub use record::{Record, Records, Section, listed};
pub use sec_base::{NoMemory, Seq};
