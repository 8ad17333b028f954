//! The job that compares two circuits by ties of their signals behind the rows of a stimulus, whatever both power up with, in the runs whose
//! inputs meet an assumption there.

mod comparison;
mod judging;

pub use comparison::{TiesBehindComparison, compare_ties_behind};
