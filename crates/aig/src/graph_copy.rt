//! What is built in a graph: a literal of another graph put into it, where the variables have other numbers, the or of two literals
//! by two shorter ones, and the literals of places that were met.

pub mod aig_or;
mod copy;
pub mod graph_clone;
pub mod memo;

pub use copy::copy_into;
