//! The job that compares two circuits, also under an assumption on their inputs, and the comparison of two nets in each mode.
#![tactic(auto)]

pub mod check_meaning;
pub mod compare_under;
mod comparison;
pub mod sec_check;

pub use comparison::{Comparison, check, compare_end};
