//! A minimal cut among latches that two circuits have under one name: the latches that are exposed where circuits with
//! feedback are compared.

mod choice;
mod error;
mod laws;
mod pairs;
mod remaining_cycle;

pub use choice::pick;
pub use error::PickError;
pub use latch_graph::LatchGraph;
pub use laws::{chosen_is_minimal_cut, refused_has_no_cut};
pub use pairs::{LatchPair, LatchPairs};
