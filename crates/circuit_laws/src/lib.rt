//! The laws of circuits, their runs and marks, sequential depth, the plain form (clocked Boolean functions) and the form from initial
//! values, with their lemmas.
#![tactic(auto)]

pub mod cycle_laws;
pub mod event_laws;
pub mod finite_laws;
pub mod laws;
pub mod reset_laws;
pub mod signal_laws;
pub mod start_laws;
