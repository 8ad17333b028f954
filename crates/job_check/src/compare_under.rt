//! Comparing two circuits under an assumption on their inputs.

mod circuits;
mod comparison;
mod cutting;
mod outcomes;

pub use assume_laws::assume_shape::ShapeFault;
pub use comparison::compare_under;
