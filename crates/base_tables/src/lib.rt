//! Tables that number names, pairs of numbers and other keys, in the order in which they first come.
#![tactic(auto)]

mod tables;
pub mod unique_table;

pub use tables::{NameTable, PlaceTable};
pub use unique_table::{Key, UniqueTable, mixed};
