//! What an outcome that fits two circuits in the plain form says of them, and lemmas on what stands behind its results. It has definitions
//! and lemmas alone: `plain_form` finds the outcome.

pub use crate::SetupError;
