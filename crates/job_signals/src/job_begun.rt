//! The job that compares two circuits behind the rows of a stimulus, whatever both power up with, by an induction over cycles: by ties of
//! their signals, or by blocks of their latches.

mod comparison;
mod judging;

pub use comparison::{BegunComparison, compare_begun};
pub use judging::text_behind;
