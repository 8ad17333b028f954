//! One pass over all latches.

ghost use Rattle.std.specs.Prelude.{◌≡◌, ◌+◌, ◌<◌, ◌≤◌, ◌^◌, true, false, length, IfOk, OnOk};
ghost use Rattle.block_refine.specs.block_graph.Graph.{IsBlockGraph};
ghost use Rattle.block_refine.specs.latch_blocks.Blocks.{IsSplit, block_at};
ghost use Rattle.block_refine.specs.Passes.{AreMembers, IsOnPass, IsPass, IsStep, IsRound};
ghost use Rattle.block_refine.specs.declared.pass.Round.TheVariants as round;

use crate::ask::{Answer, ask};
use crate::block_graph::{BlockGraph, BlockNets};
use crate::firsts::first_members;
use crate::latch_blocks::split_blocks;
use pair_decide::Proof;
use sec_base::{Ids, MAX_CONFLICTS, NoMemory, Seq};
use std::alloc::Global;

/// A partition while a pass is made over the latches, and whether the pass has split a block.
#[derive(Drop)]
pub(crate) struct Pass {
    pub blocks: Ids,
    /// The first latch of each block.
    pub firsts: Vec<usize>,
    pub split: bool,
}

/// What comes of a latch's query.
#[derive(Drop)]
pub(crate) enum Step {
    /// The pass goes on.
    Goes,
    /// The query with this latch met the limit.
    Limit(usize, Proof),
}

/// What comes of a pass.
#[derive(Drop)]
pub(crate) enum Round {
    /// No block was split, and all queries said that the latches agree.
    Same,
    /// Blocks were split.
    Split(Ids),
    /// No block was split, and the query of these two latches met the limit.
    Limit(usize, usize, Proof),
}

impl Pass {
    fn new(alloc: Global, nets: &BlockNets<'_>) -> Result<Pass, NoMemory>
        requires { IsOnPass nets.now }
        ensures { IfOk result (IsPass nets.now 0) }
    {
        nets.left.keeps();
        nets.right.keeps();
        let firsts = first_members(alloc, nets.blocks)?;
        let blocks = nets.blocks.to_vec(alloc)?;
        Ok(Pass {
            blocks: Seq::from_vec(blocks),
            firsts,
            split: false,
        })
    }

    /// Compares the latch with the first one of its block, and splits the blocks where they differ.
    fn step(
        &mut self,
        alloc: Global,
        nets: &BlockNets<'_>,
        graph: &BlockGraph,
        j: usize,
        conflicts: u32,
    ) -> Result<Step, NoMemory>
        requires graph { IsBlockGraph nets.now graph.now }
        requires pass { IsPass nets.now j self.old }
        requires latch { j < length self.old.blocks }
        requires conflicts { conflicts ≤ MAX_CONFLICTS }
        ensures { IfOk result (IsStep nets.now graph.now conflicts j self.new) }
    {
        nets.left.keeps();
        nets.right.keeps();
        let first = first_in(&self.firsts, self.blocks.as_slice(), j);
        match ask(alloc, nets, graph, first, j, conflicts)? {
            Answer::Agree => Ok(Step::Goes),
            Answer::Limit(proof) => Ok(Step::Limit(first, proof)),
            Answer::Apart(bits) => {
                self.split_by(alloc, bits)?;
                Ok(Step::Goes)
            }
        }
    }

    /// Splits the blocks by the bits of the latches.
    pub(crate) fn split_by(&mut self, alloc: Global, bits: Vec<bool>) -> Result<(), NoMemory>
        requires each { length bits.items ≡ length self.old.blocks }
        requires few { length self.old.blocks + 1 < 2 ^ 32 }
        ensures split { OnOk result (IsSplit self.old.blocks bits.items self.new.blocks) }
        ensures members { OnOk result (AreMembers self.new.blocks self.new.firsts.items) }
        ensures marked { OnOk result (self.new.split ≡ true) }
    {
        let fine = split_blocks(alloc, self.blocks.as_slice(), &bits)?;
        let firsts = first_members(alloc, fine.as_slice())?;
        self.firsts = firsts;
        self.blocks = fine;
        self.split = true;
        Ok(())
    }
}

/// The first latch of the block that this one is in.
pub(crate) fn first_in(firsts: &[usize], blocks: &[u32], latch: usize) -> usize
    requires members { AreMembers blocks.now firsts.now }
    requires latch { latch < length blocks.now }
    ensures { result ≡ block_at firsts.now (block_at blocks.now latch) }
{
    firsts[blocks[latch] as usize]
}

/// Compares each latch with the first one of its block.
pub(crate) fn pass_over(
    alloc: Global,
    nets: &BlockNets<'_>,
    conflicts: u32,
) -> Result<Round, NoMemory>
    requires nets { IsOnPass nets.now }
    requires conflicts { conflicts ≤ MAX_CONFLICTS }
    ensures { IfOk result (IsRound nets.now conflicts) }
{
    nets.left.keeps();
    nets.right.keeps();
    let graph = BlockGraph::new(alloc, nets)?;
    let mut pass = Pass::new(alloc, nets)?;
    pass.try_seeded(alloc, nets, &graph)?;
    for j in 0..nets.blocks.len() {
        match pass.step(alloc, nets, &graph, j, conflicts)? {
            Step::Goes => {}
            Step::Limit(first, proof) => return Ok(ended(pass, Round::Limit(first, j, proof))),
        }
    }
    Ok(ended(pass, Round::Same))
}

/// What comes of a pass at its end, or at the limit of a query, where no block was split. Where blocks were split, the next pass asks again.
fn ended(pass: Pass, same: Round) -> Round
    ensures split { pass.split ≡ true → result ≡ round.Split pass.blocks }
    ensures same { pass.split ≡ false → result ≡ same }
{
    if pass.split {
        Round::Split(pass.blocks)
    } else {
        same
    }
}
