//! What two circuits are compared by: the names that they share, the latches that are cut open, the numbers of their inputs, and
//! the pairs of their signals. It knows no form of comparing.
//!
//! The depths of the pairs of a setup, for each form of comparing. Its lemmas say which inputs the unfolding of an output visits.
#![tactic(auto)]

mod choice;
pub mod cut_points;
mod cycles;
mod depth;
mod error;
mod interfaces;
mod nets;
pub mod ports;
mod setup;

pub use crate::ports::{SignalPair, SignalPairs};
pub use choice::choose;
pub use cycles::graph_of;
pub use depth::pair_depth;
pub use error::SetupError;
pub use interfaces::{interface, shared_names};
pub use latch_graph::LatchGraph;
pub use nets::Nets;
pub use setup::{Setup, set_up};
