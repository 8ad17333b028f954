//! Taking a circuit as an assumption on the inputs of others: what is wrong with it first, its function, its weight, and a row of inputs
//! that meets it.
//!
//! Whether some row of inputs meets an assumption, and one that does.

mod error;
mod meeting;
mod taken;
mod widening;

pub use crate::assume_sequences::Premise;
pub use error::TakeError;
pub use meeting::{Meeting, meeting_row};
pub use taken::{Taken, take};
pub use widening::widen;
