//! Queries under an assumption on the inputs: what it is that a query is asked under one, by either order of its variables, and what the
//! answers then say. How it is asked is no matter here.

mod laws;
mod order;

pub use laws::answers_under;
pub use order::VariableOrder;
