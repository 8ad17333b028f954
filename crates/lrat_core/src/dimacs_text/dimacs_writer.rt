//! Clauses written as texts in the DIMACS format.

mod laws;
mod writer;

pub use laws::{written_is_spelled, written_meets_premises};
pub use writer::{put_literals, write_clauses};
