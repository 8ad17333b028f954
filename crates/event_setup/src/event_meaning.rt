//! What is found of pairs in the event form, by names, and what an outcome that fits two circuits says of them.

pub mod event_meaning_under;
pub mod event_names;
mod laws;

pub use crate::event_meaning::event_names::event_fits::CompareError;
pub use laws::{
    answers_are_exact, cut_outcomes_differ, different_outcomes_differ, equal_outcomes_agree,
    unshown_outcomes_are_framed,
};
