//! Blocks of latches that may be equal, on the way to the coarsest inductive partition of the latches of two nets: partitions as lists of
//! numbers and their splits; all signals of a net within one cycle as literals of a graph in which several latches may be one variable;
//! and laws of what both mean for the two nets.

mod gates;
pub mod laws;
mod literals;
mod numbers;
mod partition;
mod support;
mod variables;
mod weight;

pub use gates::gate_literal;
pub use literals::signal_literals;
pub use partition::{initial_blocks, split_blocks};
pub use support::{leaves, merged};
pub use variables::Variables;
pub use weight::is_light;
