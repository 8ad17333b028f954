//! Copies of a net: with the outputs of one name alone, without those of some names, or with latches under other names.
#![tactic(auto)]

mod alone;
mod copying;
mod laid;
mod latch_pairs;
mod new_names;
mod renaming;

pub use alone::{only_output, shows_output, without_outputs};
pub use copying::CopyError;
pub use latch_pairs::{LatchPair, LatchPairs, PairsError};
pub use renaming::{RenameError, rename_latches, renaming_keeps_runs};
