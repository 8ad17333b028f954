//! The job that compares one output of two circuits: both with that output alone; and that which compares two circuits whose latches a text
//! pairs.
#![tactic(auto)]

mod comparable_texts;
mod comparison;
pub mod job_renamed;

pub use comparable_texts::{pairs_are_comparable, renamed_are_comparable};
pub use comparison::{PairComparison, compare_pair};
