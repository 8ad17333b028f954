//! The coarsest inductive partition of the latches of two nets, by refinement of the partition by initial values: round after round
//! each latch is compared with the first one of its block, and values that tell the two apart split all blocks. What partitions and the
//! signals over them are, and what they mean for the nets, stands in `latch_blocks`.
#![tactic(auto)]

mod ask;
pub mod block_graph;
mod firsts;
pub mod latch_blocks;
pub mod laws;
mod pass;
mod refinement;
mod starts;
mod trial;

pub use refinement::{Refined, SplitLimit, refine};
