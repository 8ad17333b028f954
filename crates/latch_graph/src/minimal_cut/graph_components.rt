//! Which readings of the signals of a latch graph can be part of a cycle: those within one strongly connected component.

mod components;
mod inner;

pub use inner::inner_nodes;
pub use signal_graph::{Ids, LatchAt, NoMemory, Node, Seq, Signal, SignalGraph, Signals};
