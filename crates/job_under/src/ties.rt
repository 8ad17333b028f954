//! The job that compares two circuits by ties of their signals in runs from their initial values whose inputs meet an assumption.

mod comparison;
mod judging;
mod report;

pub use comparison::{TiesComparison, compare_ties};
pub use job_signals::job_begun::text_behind;
pub use judging::judge_ties;
