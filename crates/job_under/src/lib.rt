//! The jobs that search two circuits for a difference, or compare them by ties of their signals, in runs from their initial values whose
//! inputs meet an assumption.
#![tactic(auto)]

mod comparison;
mod judging;
mod reading;
pub mod ties;
mod under_report;

pub use comparison::{UnderComparison, compare_under};
pub use judging::Judged;
pub use reading::{ReadThree, UnderPaths, read_three};
pub use under_report::{put_undecided, put_under_front};
