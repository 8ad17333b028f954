//! Two circuits compared from their initial values by the coarsest inductive partition of both circuits' latches, which are paired by
//! behaviour and not by name.
#![tactic(auto)]

pub mod block_outputs;
pub mod induct_report;
mod induction;
mod members;
mod numbers;
mod verdict;

pub use induction::{
    Block, Blocks, InductError, InductPair, InductPairs, InductVerdict, Induction, induct,
};
