//! The job that compares two circuits from their initial values by blocks of latches.

mod comparison;
pub mod induct_meaning;
mod judging;

pub use comparison::{BlockComparison, compare_by_blocks};
pub use judging::{JudgeError, Judged, judge_nets};
