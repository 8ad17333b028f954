//! The job that runs two circuits over a stimulus from what is known of them at first, by their initial values or behind the rows of another
//! stimulus, and tells where both are known and differ.
#![tactic(auto)]

mod course;
mod files;
mod known_pairs;
mod known_report;
mod replaying;

pub use files::{KnownPaths, replay_behind, replay_from_reset};
pub use known_pairs::KnownReplay;
