//! What is asked of pairs of signals in the plain form: their functions of the inputs at earlier cycles, whether both agree always, what is
//! found of them, and the sequence of a difference.
#![tactic(auto)]

mod apart;
mod error;
mod findings;
mod functions;
mod questions;
mod witness;

pub use apart::{PairFunctions, unfold_apart};
pub use error::PlainError;
pub use findings::Findings;
pub use functions::{Functions, unfold_pairs};
pub use questions::{ask, ask_apart};
pub use witness::witness_of;
