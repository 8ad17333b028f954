//! Comparison under an assumption on the inputs: the laws that hold of the runs that meet it.
#![tactic(auto)]

pub mod assume_shape;
pub mod laws;
pub mod settle_laws;
