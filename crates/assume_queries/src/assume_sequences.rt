//! The rows of a sequence under an assumption on the inputs: a cycle at whose place none of the variables stands that are compared
//! holds a row that meets the assumption.
//!
//! What comparisons under an assumption on the inputs take of it.

pub mod assume_taken;
mod fill;
mod premise;

pub use crate::assume_functions::{OwnFunction, own_function};
pub use cbf_unfold::shift_variables::rows_of;
pub use fill::{fill_cycles, fill_shifts};
pub use premise::Premise;
