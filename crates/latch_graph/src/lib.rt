//! The latch graph of a flat circuit: sequential depth, cycles, and the weight of its unfolding; and a minimal cut among pairs of latches
//! of two such graphs.
#![tactic(auto)]

mod graph;
pub mod minimal_cut;
mod rounds;
mod states;

pub use graph::LatchGraph;
pub use signal_graph::unfolding_weight::Weight;
pub use signal_graph::{Bits, Duplicate, Ids, Net, NoMemory, Seq, Side, Words, none_enabled};
pub use states::{State, Step};
