//! The outputs of two nets compared over a partition of their latches: each output of A beside B's of its name, and what a pair's query
//! says of all values that are constant on the blocks.

mod answer;
pub mod laws;
mod outputs;

pub use answer::{OutputAnswer, Shown};
pub use block_refine::{Refined, SplitLimit, refine};
pub use outputs::{OutputPair, OutputPairs, compare_outputs};
