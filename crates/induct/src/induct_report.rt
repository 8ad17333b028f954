//! The report of a comparison by blocks of latches, as text.

mod text;
mod whole;

pub use crate::{InductError, InductPair, InductPairs, InductVerdict, Induction, induct};
pub use whole::report;
