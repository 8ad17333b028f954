//! The event functions of two circuits whose latches have their classes, over one event graph, with what they weigh together (after the
//! event-driven Boolean functions of Ranjan, Singhal, Somenzi and Brayton, DATE 1999).

mod events;
mod laws;

pub use crate::event_agreement::{EventUnfoldError, Query, SignalFunction};
pub use events::Events;
pub use laws::counted_is_within;
