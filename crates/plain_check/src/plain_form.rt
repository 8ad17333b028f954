//! The plain form: pairs of signals of two circuits without cycles of latches, as functions of the inputs at earlier cycles.

mod comparison;
pub mod laws;
mod shown;

pub use comparison::compare_plain;
pub use plain_asked::{Findings, PlainError};
