//! The event form under an assumption on the inputs: what a pair is asked under one, what the answers then say, and what shows a
//! difference.
#![tactic(auto)]

pub mod event_asked_under;
pub mod event_shown_under;
pub mod event_under_form;
pub mod laws;
