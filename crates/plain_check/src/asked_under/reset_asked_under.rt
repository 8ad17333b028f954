//! Comparing the pairs of two circuits from their initial values under an assumption on the inputs: the pairs' functions and what is asked
//! of them are those of the form from initial values, each query with the assumption as its care.
//!
//! The form from initial values under an assumption on the inputs: what the answers to its queries say of a pair in a cycle, where each
//! has the assumption as its care.

mod comparison;
mod laws;
mod shown;

pub use comparison::compare_reset_under;
pub use laws::cycles_fit_under;
pub use reset_form::reset_asked::{ResetFindings, ResetVerdict};
