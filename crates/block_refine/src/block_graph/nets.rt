//! What is put on a graph.

ghost use Rattle.std.specs.Prelude.{◌≡◌, ◌+◌, ◌<◌, length, slice_get, Some};
ghost use Rattle.block_refine.specs.latch_blocks.Partitions.{nexts_of};
ghost use Rattle.block_refine.specs.block_graph.Graph.{IsSignalOf, number_of};

use flat_net::{Net, Signal};
use sec_base::Orders;

/// Two nets, A's and B's, with the numbers of their inputs and the blocks of their latches.
#[derive(Clone, Copy)]
pub struct BlockNets<'a> {
    pub left: &'a Net,
    pub right: &'a Net,
    pub orders: &'a Orders,
    /// The number of its block for each latch of A and then of B. Blocks are numbered from 0 in the order of their first members.
    pub blocks: &'a [u32],
}

/// A signal of A or of B.
#[derive(Clone, Copy)]
pub enum NetSignal {
    Left(Signal),
    Right(Signal),
}

impl<'a> BlockNets<'a> {
    /// What the latch at this place takes over. B's latches stand behind A's.
    pub fn next(&self, place: usize) -> NetSignal
        requires { place < length self.now.left.now.latches + length self.now.right.now.latches }
        ensures at { slice_get (nexts_of self.now.left.now self.now.right.now) place ≡ Some (number_of result) }
        ensures signal { IsSignalOf self.now result }
    {
        self.left.keeps();
        self.right.keeps();
        let left = self.left.latches();
        if place < left.len() {
            NetSignal::Left(left[place].next)
        } else {
            NetSignal::Right(self.right.latches()[place - left.len()].next)
        }
    }
}
