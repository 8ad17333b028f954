//! The refinement.

ghost use Rattle.std.specs.Prelude.{◌≡◌, ◌^◌, ◌<◌, ◌≤◌, length, All, IfOk};
ghost use Rattle.block_refine.specs.latch_blocks.Signals.{net_weight};
ghost use Rattle.block_refine.specs.Refining.{IsRefined};

use crate::block_graph::BlockNets;
use crate::pass::{Round, pass_over};
use crate::starts::by_starts;
use flat_net::Net;
use pair_decide::Proof;
use sec_base::{Ids, MAX_CONFLICTS, MAX_WEIGHT, NoMemory, Orders};
use std::alloc::Global;

/// A partition with two latches of one block, whose query met the limit.
#[derive(Drop)]
pub struct SplitLimit {
    /// The number of its block for each latch of A and then of B.
    pub blocks: Ids,
    pub left: usize,
    pub right: usize,
    pub proof: Proof,
}

/// What comes of the refinement.
#[derive(Drop)]
pub enum Refined {
    /// The coarsest inductive partition: the number of its block for each latch of A and then of B, in the order of first members.
    Inductive(Ids),
    /// A query met the limit.
    Limit(SplitLimit),
}

/// Refines the partition by initial values, with at most so many conflicts for each query, until it is inductive.
pub fn refine(
    alloc: Global,
    left: &Net,
    right: &Net,
    orders: &Orders,
    conflicts: u32,
) -> Result<Refined, NoMemory>
    requires light { (net_weight left.now ≤ MAX_WEIGHT) × (net_weight right.now ≤ MAX_WEIGHT) }
    requires long { (length orders.now.left ≡ length left.now.inputs) × (length orders.now.right ≡ length right.now.inputs) }
    requires small { All (λ i. i < 2 ^ 31) orders.now.left × All (λ i. i < 2 ^ 31) orders.now.right }
    requires conflicts { conflicts ≤ MAX_CONFLICTS }
    ensures { IfOk result (IsRefined left.now right.now orders.now conflicts) }
{
    left.keeps();
    right.keeps();
    let mut blocks = by_starts(alloc, left, right)?;
    'rounds: loop {
        let nets = BlockNets {
            left,
            right,
            orders,
            blocks: blocks.as_slice(),
        };
        match pass_over(alloc, &nets, conflicts)? {
            Round::Same => return Ok(Refined::Inductive(blocks)),
            Round::Split(fine) => blocks = fine,
            Round::Limit(left, right, proof) => {
                return Ok(Refined::Limit(SplitLimit {
                    blocks,
                    left,
                    right,
                    proof,
                }));
            }
        }
    }
}
