//! The job that runs two circuits on one stimulus.
//!
//! The differences of two circuits on one stimulus, in a mode, and since when their pairs are settled.

mod fault;
mod modes;
mod replays;

pub use fault::ReplayFault;
pub use modes::replay_in;
pub use replays::{Replay, ReplayReport, replay_files};
