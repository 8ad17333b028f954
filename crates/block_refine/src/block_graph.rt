//! Two nets whose latches are in blocks, on one graph in which each input is its number and all latches of a block are one variable:
//! whether two signals have one value for all values that are constant on the blocks, and what the latches take over under an
//! assignment.

mod compare;
mod graph;
mod nets;
mod nexts;
mod numbering;

pub use compare::Comparison;
pub use graph::{BlockGraph, NetLits};
pub use nets::{BlockNets, NetSignal};
