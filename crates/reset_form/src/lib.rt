//! The reset form: pairs of signals of two circuits without cycles of latches, in each cycle up to their depth, as functions of the
//! inputs so far and of the latches without an initial value.
#![tactic(auto)]

mod comparison;
pub mod reset_asked;
pub mod reset_functions;
pub mod reset_unfold;
mod shown;
mod witness;

pub use crate::reset_functions::{Bases, ResetError};
pub use comparison::compare_reset;
pub use reset_asked::{ResetFindings, ResetVerdict};
pub use witness::witness_in;
