//! Splits without a query, by what the latches take over under seeded assignments.

ghost use Rattle.std.specs.Prelude.{◌≡◌, ℕ, Bool, ◌<◌, length, map, All, IfOk, OnOk, IfSome};
ghost use Rattle.std.specs.List.Sorted.{IsStrictlyIncreasing};
ghost use Rattle.circuit_theory.specs.Joined.{Either};
ghost use Rattle.block_refine.specs.latch_blocks.Partitions.{nexts_of};
ghost use Rattle.block_refine.specs.block_graph.Comparing.{AreReadBy};
ghost use Rattle.block_refine.specs.block_graph.Graph.{IsBlockGraph};
ghost use Rattle.block_refine.specs.Passes.{AreMembers, IsPass, IsApartAt};

use crate::block_graph::{BlockGraph, BlockNets};
use crate::latch_blocks::merged;
use crate::pass::{Pass, first_in};
use rand_core::{Rng, SeedableRng};
use rand_xoshiro::Xoshiro256PlusPlus;
use sec_base::{Bits, Ids, NoMemory};
use std::alloc::Global;

/// The most assignments that are tried before the first query of a pass.
const TRIALS: usize = 64;

impl Pass {
    /// Splits the blocks by seeded assignments, one after the other, up to the first that tells no latch apart from the first one of its
    /// block.
    pub(crate) fn try_seeded(
        &mut self,
        alloc: Global,
        nets: &BlockNets<'_>,
        graph: &BlockGraph,
    ) -> Result<(), NoMemory>
        requires graph { IsBlockGraph nets.now graph.now }
        requires pass { IsPass nets.now 0 self.old }
        ensures { OnOk result (IsPass nets.now 0 self.new) }
    {
        let vars = all_variables(alloc, graph.limit)?;
        let mut generator = Xoshiro256PlusPlus::seed_from_u64(1);
        for _n in 0..TRIALS {
            if !self.try_bits(alloc, nets, graph, &vars, &mut generator)? {
                return Ok(());
            }
        }
        Ok(())
    }

    /// Splits the blocks by the next assignment of these variables, and says so, where it tells a latch apart from the first one of its
    /// block.
    fn try_bits(
        &mut self,
        alloc: Global,
        nets: &BlockNets<'_>,
        graph: &BlockGraph,
        vars: &Ids,
        generator: &mut Xoshiro256PlusPlus,
    ) -> Result<bool, NoMemory>
        requires graph { IsBlockGraph nets.now graph.now }
        requires pass { IsPass nets.now 0 self.old }
        requires increasing { IsStrictlyIncreasing vars.now }
        requires below { All (λ k. k < graph.now.limit) vars.now }
        ensures { OnOk result (IsPass nets.now 0 self.new) }
    {
        nets.left.keeps();
        nets.right.keeps();
        let made = seeded_nexts(alloc, nets, graph, vars.as_slice(), generator)?;
        let Some(_latch) = first_apart(&self.firsts, self.blocks.as_slice(), &made) else {
            return Ok(false);
        };
        self.split_by(alloc, made)?;
        Ok(true)
    }
}

/// All variables below the limit.
fn all_variables(alloc: Global, limit: u32) -> Result<Ids, NoMemory>
    ensures increasing { IfOk result IsStrictlyIncreasing }
    ensures below { IfOk result (All (λ k. k < limit)) }
{
    let mut all = Vec::new(alloc);
    for v in 0..limit {
        all.push(v)?;
    }
    merged(all, &[])
}

/// What all latches take over under the next assignment of these variables, where all others are 0.
fn seeded_nexts(
    alloc: Global,
    nets: &BlockNets<'_>,
    graph: &BlockGraph,
    vars: &[u32],
    generator: &mut Xoshiro256PlusPlus,
) -> Result<Vec<bool>, NoMemory>
    requires graph { IsBlockGraph nets.now graph.now }
    requires increasing { IsStrictlyIncreasing vars.now }
    requires below { All (λ k. k < graph.now.limit) vars.now }
    ensures { IfOk result (λ made. (v : ℕ → Bool) × ((x : Either ℕ ℕ → Bool) → AreReadBy nets.now graph.now v x → made.items ≡ map x (nexts_of nets.now.left.now nets.now.right.now))) }
{
    let mut bits = Bits::new(alloc);
    for _n in 0..vars.len() {
        bits.push(generator.next_u64() % 2 == 1)?;
    }
    graph.next_bits(alloc, nets, vars, bits.as_slice())
}

/// The first latch whose bit isn't that of the first one of its block.
fn first_apart(firsts: &[usize], blocks: &[u32], bits: &[bool]) -> Option<usize>
    requires members { AreMembers blocks.now firsts.now }
    requires each { length bits.now ≡ length blocks.now }
    ensures { IfSome result (IsApartAt firsts.now blocks.now bits.now) }
{
    for j in 0..blocks.len() {
        let first = first_in(firsts, blocks, j);
        if bits[first] != bits[j] {
            return Some(j);
        }
    }
    None
}
