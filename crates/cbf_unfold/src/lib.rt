//! The plain unfolding: a signal of a net with latches as a function of inputs at earlier cycles (the clocked Boolean
//! functions of Ranjan, Singhal, Somenzi and Brayton, DATE 1999).
#![tactic(auto)]

mod laws;
pub mod shift_variables;
pub mod unfold_places;
mod unfolder;

pub use crate::unfold_places::{UnfoldError, Unfolded, memo, reads};
pub use latch_graph::LatchGraph;
pub use laws::{
    constant_reaches_none, equal_trees_one_literal, fits_later, literal_is_run, reached_from_one,
    unfolded_later, variables_cover_cone, windows,
};
pub use unfolder::Unfolder;
