//! Comparing the pairs of two circuits in the plain form under an assumption on the inputs: the pairs' functions and what is asked of them
//! are those of the plain form, each query with the assumption as its care.
//!
//! The plain form under an assumption on the inputs: what the answers to its queries say of pairs, where each has the assumption as its
//! care.

mod comparison;
mod laws;
mod shown;
pub mod under_meaning;

pub use assume_queries::assume_sequences::Premise;
pub use comparison::compare_plain_under;
pub use laws::{differences_show_under, pairs_fit_under};
pub use plain_asked::Findings;
