//! The shape of an assumption on the inputs of two circuits: a circuit without latches, with one output, that reads inputs which both
//! circuits have; and the numbers of its inputs.

mod laws;
mod numbers;
mod shape;

pub use laws::shapes_are_assumptions;
pub use numbers::numbers_of;
pub use shape::{ShapeFault, shape_fault};
