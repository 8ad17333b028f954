//! Event functions with their variables, counted: signals of a circuit whose latches have classes as functions of inputs at event nodes,
//! which latches they reach at which of these, and what load enables take of it all together (after the event-driven Boolean functions of
//! Ranjan, Singhal, Somenzi and Brayton, DATE 1999).

pub mod class_totals;
pub mod counting;
pub mod event_reach;
pub mod laws;
pub mod refusal;
mod signals;

pub use signals::{SignalFunction, unfold_signal};
