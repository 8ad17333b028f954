//! The differences that two circuits show on a stimulus, and since when their pairs are settled. Each latch that the stimulus names is cut open in both: it takes its values
//! from the stimulus, and what it takes over is compared as the outputs are.

pub mod cut_sides;
pub mod replay_header;
mod two_circuits;

pub use crate::replay::replay_header::ReplayError;
pub use cycle_sim::pair_runs::{Difference, Differences, Replayed, Settling, Settlings};
pub use two_circuits::replay;
