//! Two circuits as event functions: their enabled latches are given classes, and then their signals can be unfolded.

pub mod laws;
mod making;
mod separated;

pub use crate::event_agreement::pair_events::Events;
pub use event_classes::{Apart, EventError};
pub use making::{Separated, events_of, of_map};
pub use separated::apart_at;
