//! Values of a graph's nodes under 512 assignments at once, tables of all assignments of at most 24 variables, and which roots of a
//! graph with few inputs agree under all of them.

mod blocks;
mod evaluation;
mod places;
pub mod root_classes;
mod signature_table;
mod table;
mod variables;

pub use crate::{Aig, Lit, Node};
pub use blocks::and_block;
pub use signature_table::{SignatureTable, signatures};
pub use table::table_differs;
pub use variables::variable_block;
