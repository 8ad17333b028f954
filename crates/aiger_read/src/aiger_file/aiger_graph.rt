//! The circuit of a file in the AIGER formats, what its literals read, and an order of them, or a loop of gates.

mod graph;

pub use graph::{Ordered, order_literals};
