//! What it means that an outcome fits two circuits in the plain form under an assumption on the inputs, and what it then says of them.

mod laws;
pub mod under_reset_meaning;

pub use laws::{different_shows_under, equal_says_under, not_shown_under};
