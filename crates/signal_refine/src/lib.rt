//! Ties of the signals of two nets that an inductive invariant gives: each signal is tied to a bit, or to an earlier signal or its
//! complement. The invariant is of the nodes of a graph that both nets' signals are literals of. Candidates are guessed by runs, and ties
//! of nodes are dropped until what is left is shown, at first and in each step.
#![tactic(auto)]

mod ahead;
mod anchors;
mod ask;
mod assumed;
mod copies;
mod facts;
mod flops;
mod leaves;
mod nets;
mod refinement;
mod signals;
mod sweep;
mod told;

pub use assumed::Assumed;
pub use nets::SignalNets;
pub use refinement::{Correspondence, are_moved, correspond};
