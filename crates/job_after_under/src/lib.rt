//! The jobs that search two circuits for a difference behind the rows of a stimulus, or compare them there by ties of their signals, whatever
//! both power up with, in the runs whose inputs meet an assumption behind the rows.
#![tactic(auto)]

mod comparison;
mod fault;
mod found_report;
mod judging;
mod reading;
mod shown;
pub mod ties;

pub use comparison::{AfterUnderComparison, compare_after_under};
