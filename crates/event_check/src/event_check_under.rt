//! Comparing two circuits in the event form under an assumption on their inputs.

mod circuits;
mod comparison;
pub mod event_answers_under;
pub mod event_names_under;
mod pairs;

pub use comparison::{compare_in_events_under, settle_in_events_under};
