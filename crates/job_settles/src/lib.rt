//! The job that compares two circuits, also under an assumption on their inputs, and finds out of each pair whether both its sides have care together in
//! some frame.
#![tactic(auto)]

mod comparison;
mod job;
mod report;

pub use job::check_settles;
