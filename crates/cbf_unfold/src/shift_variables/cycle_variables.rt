//! Inputs in cycles, and latches in cycle 0, as variables, by their numbers in a table: the order of two lists as one, and the rows
//! and the power-up that bits of them make.

mod merge;
mod powers;
mod rows;

pub use merge::merge_cycles;
pub use powers::power_up;
pub use rows::cycle_rows;
