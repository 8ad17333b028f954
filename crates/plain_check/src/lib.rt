//! Comparing two circuits by cycles: over all power-ups, or from the latches' initial values.
#![tactic(auto)]

pub mod asked_under;
mod comparison;
pub mod plain_form;
pub mod under_base;

pub use crate::under_base::compare_base::CompareError;
pub use comparison::compare_plainly;
