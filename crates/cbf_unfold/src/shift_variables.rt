//! Inputs at shifts as variables, by their numbers in a table: the order of two lists as one, the rows of the sequence that bits
//! of them make, and the values of a query's sides at these bits.

pub mod cycle_variables;
mod merge;
pub mod query_places;
mod rows;
mod sides;

pub use merge::merge_variables;
pub use pair_decide::SameBy;
pub use rows::{bits_at, end_of_shift, rows_of};
pub use sides::sides_at;
