//! The outside: where files are read from and reports are written, and a whole file in memory.
#![tactic(auto)]

mod mem_shelf;
mod mem_sink;
mod shelves;
mod sinks;
mod whole_file;

pub use base_lists::{
    BitRows, Bits, Cubes, Duplicate, FileText, Ids, NoMemory, Seq, Text, Word, Words, unset_bits,
};
pub use mem_shelf::{HeldFile, MemShelf};
pub use mem_sink::MemSink;
pub use shelves::{FileShelf, Shelf, ShelfError};
pub use sinks::{Failed, Sink, StdSink};
pub use whole_file::{FetchError, fetch};
