//! A search for a difference of two circuits in runs from the latches' initial values, cycle by cycle, where the inputs meet an assumption
//! in each cycle.
#![tactic(auto)]

mod asked;
mod care;
mod cycle;
mod found;
mod laws;
mod search;
mod taking;

pub use found::{SearchUnder, UnderError};
pub use laws::{equal_to_depths_agree_under, equal_up_to_agree_under, witness_differs_under};
pub use search::search_under;
pub use taking::search_cycles_under;
