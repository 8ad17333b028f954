//! The report of a replay.

mod report;

pub use report::{replay_report, settle_report, settled_count, settled_replay_report};
