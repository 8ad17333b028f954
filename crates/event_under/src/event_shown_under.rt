//! What shows a difference in the event form under an assumption on the inputs: the rows of its sequence.

pub mod event_under_fits;
mod rows;
mod steps;
mod variables;

pub use rows::rows_under;
pub use variables::{NodeVariables, node_variables};
