//! What a comparison of two circuits under an assumption on their inputs answers, and what each answer says of them; how the answers are
//! found is no matter here.

pub mod compare_base;
mod laws;
pub mod under_fits;

pub use crate::under_base::compare_base::CompareError;
pub use assume_queries::assume_sequences::assume_taken::{Premise, TakeError, Taken, take, widen};
pub use laws::verdicts_under;
