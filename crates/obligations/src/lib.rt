//! What is asked of pairs of signals, decided: queries over one graph. Nothing here knows what the graph's variables stand for.
#![tactic(auto)]

mod carries;
mod decision;
mod found;
mod known;
mod names;
mod numbered;
mod obligation;
pub mod outcome;
mod sides;
mod verdict;
mod words;

pub use crate::outcome::{PairName, PairResults, Query, Stimulus, Verdict, Witness};
pub use decision::{Decided, decide_all, decide_near};
pub use names::copy_name;
pub use obligation::{Difference, Obligation, Queries};
pub use verdict::{VerdictAt, greatest_size, verdict_at};
