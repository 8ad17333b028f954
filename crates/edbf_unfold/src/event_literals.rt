//! The literals of signals in frames: each place that an event unfolding visits as a literal of the graph over inputs at event nodes
//! (for the event-driven Boolean functions of Ranjan, Singhal, Somenzi and Brayton, DATE 1999).

mod builder;
pub mod event_walk;

pub use aig::graph_copy::aig_or::short_and;
pub use builder::{EventBuilder, Unfolding};
pub use event_walk::{
    Aig, Counter, Driver, EventCircuit, EventGraph, EventUnfoldError, Frame, Ids, Lit, NoMemory,
    Place, PlaceTable, Put, Seq, Signal, Ways, constant, latch_of,
};
