//! Two signals compared over the blocks.

ghost use Rattle.std.specs.Prelude.{◌<◌, ◌≤◌, IfOk};
ghost use Rattle.block_refine.specs.block_graph.Graph.{IsBlockGraph, IsSignalOf, number_of};
ghost use Rattle.block_refine.specs.block_graph.Comparing.{IsLitIn, AreOwn, IsComparison, AreLeavesOf};

use crate::block_graph::graph::BlockGraph;
use crate::block_graph::nets::{BlockNets, NetSignal};
use crate::latch_blocks::{leaves, merged};
use aig::Lit;
use pair_decide::{Decision, Query, decide};
use sec_base::{Ids, MAX_CONFLICTS, NoMemory};
use std::alloc::Global;

/// The answer to a query of two signals.
#[derive(Drop)]
pub struct Comparison {
    /// The variables of both signals, increasing. A difference has a bit for each.
    pub vars: Ids,
    pub decision: Decision,
}

impl BlockGraph {
    /// Whether the two signals have one value for all values that are constant on the blocks.
    pub fn compare(
        &self,
        alloc: Global,
        nets: &BlockNets<'_>,
        left: NetSignal,
        right: NetSignal,
        conflicts: u32,
    ) -> Result<Comparison, NoMemory>
        requires graph { IsBlockGraph nets.now self.now }
        requires left { IsSignalOf nets.now left }
        requires right { IsSignalOf nets.now right }
        requires conflicts { conflicts ≤ MAX_CONFLICTS }
        ensures { IfOk result (IsComparison nets.now self.now (number_of left) (number_of right) conflicts) }
    {
        self.aig.keeps();
        let vars = self.variables(alloc, nets, left, right)?;
        let query = Query {
            left: self.lit(nets, left),
            right: self.lit(nets, right),
            care: Lit::TRUE,
            vars,
        };
        let decision = decide(alloc, &self.aig, &query, conflicts)?;
        Ok(Comparison {
            vars: query.vars,
            decision,
        })
    }

    /// The literal of the signal.
    pub fn lit(&self, nets: &BlockNets<'_>, signal: NetSignal) -> Lit
        requires graph { IsBlockGraph nets.now self.now }
        requires signal { IsSignalOf nets.now signal }
        ensures { IsLitIn self.now (number_of signal) result }
    {
        match signal {
            NetSignal::Left(s) => self.left.lits[s.0 as usize],
            NetSignal::Right(s) => self.right.lits[s.0 as usize],
        }
    }

    fn variables(
        &self,
        alloc: Global,
        nets: &BlockNets<'_>,
        left: NetSignal,
        right: NetSignal,
    ) -> Result<Ids, NoMemory>
        requires graph { IsBlockGraph nets.now self.now }
        requires left { IsSignalOf nets.now left }
        requires right { IsSignalOf nets.now right }
        ensures { IfOk result (AreOwn nets.now self.now (number_of left) (number_of right)) }
    {
        let own = self.leaves(alloc, nets, left)?;
        let other = self.leaves(alloc, nets, right)?;
        merged(own, &other)
    }

    fn leaves(
        &self,
        alloc: Global,
        nets: &BlockNets<'_>,
        signal: NetSignal,
    ) -> Result<Vec<u32>, NoMemory>
        requires graph { IsBlockGraph nets.now self.now }
        requires signal { IsSignalOf nets.now signal }
        ensures { IfOk result (λ found. AreLeavesOf nets.now self.now (number_of signal) found.items) }
    {
        match signal {
            NetSignal::Left(s) => leaves(alloc, nets.left, &self.left.variables, s),
            NetSignal::Right(s) => leaves(alloc, nets.right, &self.right.variables, s),
        }
    }
}
