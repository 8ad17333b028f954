//! The event form: pairs of signals of two circuits whose latches have their classes, as functions of inputs at event nodes that are compared
//! wherever both have care, and what the answers say of the circuits (after the event-driven Boolean functions of Ranjan, Singhal, Somenzi
//! and Brayton, DATE 1999).
#![tactic(auto)]

mod error;
pub mod event_agreement;
pub mod event_findings;
mod frames;
pub mod laws;
mod nodes;
mod questions;

pub use crate::event_agreement::pair_events::Events;
pub use error::EventFormError;
pub use frames::{FrameBit, frame_of};
pub use nodes::union_of;
pub use obligations::{Difference, Obligation, copy_name};
pub use questions::{ask_pairs, unfold};
