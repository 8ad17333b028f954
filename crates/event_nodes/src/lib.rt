//! Event nodes, the graph over inputs at event nodes and the order of these inputs as variables, circuits whose latches have classes, and
//! what unfoldings weigh (after the event-driven Boolean functions of Ranjan, Singhal, Somenzi and Brayton, DATE 1999).
#![tactic(auto)]

mod circuit;
mod counter;
mod cover_graph;
mod error;
pub mod event_variables;
mod events;
pub mod laws;
mod net_parts;

pub use aig::{Aig, Lit};
pub use circuit::EventCircuit;
pub use counter::Counter;
pub use error::EventUnfoldError;
pub use events::EventGraph;
pub use flat_net::{
    Bits, Driver, Ids, MAX_CONFLICTS, Net, NoMemory, PlaceTable, Seq, Side, Signal, Tag, gate_of,
    latch_of, weigh,
};
pub use net_parts::{Place, add};
pub use sec_base::MAX_EVENT_NODES;
