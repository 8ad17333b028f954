//! Two nets that run over a stimulus side by side, the pairs of their outputs that differ, and since when each is settled.

mod differences;
mod feed;
pub mod replay_report;
mod run;
mod shown;

pub use differences::{Difference, Differences, OutputPair, Replayed, Settling, Settlings};
pub use run::{Side, run_pairs};
pub use shown::Shown;
