//! The functions of pairs of signals of two circuits without cycles of latches, in each cycle up to the pairs' depths, of runs
//! from the initial values: functions of the inputs so far and of the latches without an initial value.

mod bases;
mod error;
mod functions;

pub use bases::{Bases, bases_of};
pub use cbf_unfold::shift_variables::SameBy;
pub use error::ResetError;
pub use functions::{Cycles, Functions, Part, unfold_pairs};
