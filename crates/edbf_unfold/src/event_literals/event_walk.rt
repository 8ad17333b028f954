//! The walk of an event unfolding: which places, a signal in a frame, the unfolding of a signal visits, what they weigh, and an order
//! in which their functions can be made (for the event-driven Boolean functions of Ranjan, Singhal, Somenzi and Brayton, DATE 1999).

mod entering;
mod frames;
mod walker;

pub use event_nodes::{
    Aig, Counter, Driver, EventCircuit, EventGraph, EventUnfoldError, Ids, Lit, NoMemory, Place,
    PlaceTable, Seq, Signal, gate_of, latch_of,
};
pub use frames::{Frame, Put, Step, Ways, beside, constant};
pub use walker::EventWalker;
