//! The job that compares two circuits from their initial values by ties of their signals.
#![tactic(auto)]

mod comparison;
pub mod job_begun;
mod judging;

pub use comparison::{SignalComparison, compare_by_signals};
