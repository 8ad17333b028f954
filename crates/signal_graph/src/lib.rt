//! What each signal of a flat circuit reads, a latch in the cycle before, with or without its self-edge; and what of a latch's cone
//! leads back to the latch.
#![tactic(auto)]

mod graph;
pub mod inner_cone;
mod nodes;
pub mod unfolding_weight;

pub use crate::inner_cone::{
    Bits, Duplicate, Ids, LatchAt, Net, NoMemory, Seq, Side, Signal, Signals, Words, none_enabled,
};
pub use graph::SignalGraph;
pub use nodes::Node;
