//! The job that compares two circuits whose latches a text pairs: A, and B with its latches under the names of A's.

mod comparison;
mod pairs_text;
mod renamed_net;

pub use comparison::{RenamedComparison, compare_renamed};
pub use renamed_net::PairsStop;
