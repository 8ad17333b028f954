//! Queries under an assumption on the inputs: its function, once on a graph of its own and from there at each place of a comparison; what
//! is asked of pairs gets it as its care, at each place that has a variable of both sides; and the rows of a sequence that meets it
//! throughout. Nothing here knows a form but for the order of its variables.
//!
//! The care of a query under an assumption: the assumption's literals at several places, all together.
#![tactic(auto)]

pub mod assume_answers;
pub mod assume_functions;
pub mod assume_sequences;
mod care;
mod map;
mod order;
mod parts;
mod query;

pub use crate::assume_functions::assume_places::OwnFunction;
pub use care::conjunction;
pub use map::{UnderError, asked_under};
