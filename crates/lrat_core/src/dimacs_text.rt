//! Clauses as texts in the DIMACS format for satisfiability ("Satisfiability: Suggested Format", DIMACS, 1993).

mod body;
mod counts;
pub mod dimacs_writer;
mod entries;
mod formula;
mod header;
mod literals;
mod reader;

pub use counts::Header;
pub use entries::Entry;
pub use formula::{Formula, LiteralLists, MAX_COUNT};
pub use literals::{is_literal, put_literals};
pub use reader::read_dimacs;
