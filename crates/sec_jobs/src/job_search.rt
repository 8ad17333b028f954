//! The job that searches two circuits for a difference in the cycles from 0 on.

mod comparison;
mod judging;
pub mod search_meaning;

pub use comparison::{CycleComparison, compare_in_cycles};
pub use judging::{judgement_of, proofs_of};
