//! What is asked of pairs of signals from the initial values, a query for each cycle up to a pair's depth; what is found of them, and the
//! sequence of a difference.

mod findings;
mod questions;
mod sequence;

pub use findings::{ResetFindings, ResetVerdict};
pub use questions::ask;
pub use sequence::sequence_of;
