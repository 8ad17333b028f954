//! What answers to the queries of pairs say of both circuits in the event form: laws alone.

pub mod event_pairs;
pub mod laws;
pub mod pair_events;

pub use class_search::{
    Aig, Counter, EventCircuit, EventGraph, EventUnfoldError, Ids, Lit, NoMemory, Query, Side,
    Signal, merge_variables, node_path,
};
pub use event_classes::event_functions::{SignalFunction, unfold_signal};
