//! Comparing two circuits in the event form, with an assumption on the inputs or without one.
#![tactic(auto)]

mod comparison;
pub mod event_answers;
pub mod event_check_under;
mod pairs;

pub use comparison::{compare_in_events, settle_in_events};
