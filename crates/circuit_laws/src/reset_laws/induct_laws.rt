//! Inductive partitions of the latches of two circuits with initial values: the coarsest one, and why the latches of one block are
//! equal in every cycle.

pub mod laws;
