//! Whether two latches take over one value.

ghost use Rattle.std.specs.Prelude.{◌+◌, ◌<◌, ◌≤◌, length, IfOk};
ghost use Rattle.block_refine.specs.block_graph.Graph.{IsBlockGraph};
ghost use Rattle.block_refine.specs.Asking.{IsAnswer};

use crate::block_graph::{BlockGraph, BlockNets, Comparison};
use pair_decide::{Decision, Proof};
use sec_base::{MAX_CONFLICTS, NoMemory};
use std::alloc::Global;

/// The answer to the query of what two latches take over.
#[derive(Drop)]
pub(crate) enum Answer {
    /// They take over one value, for all values that are constant on the blocks.
    Agree,
    /// What all latches take over under values that tell the two apart.
    Apart(Vec<bool>),
    Limit(Proof),
}

/// Whether the latches at these two places take over one value, for all values that are constant on the blocks.
pub(crate) fn ask(
    alloc: Global,
    nets: &BlockNets<'_>,
    graph: &BlockGraph,
    i: usize,
    j: usize,
    conflicts: u32,
) -> Result<Answer, NoMemory>
    requires graph { IsBlockGraph nets.now graph.now }
    requires first { i < length nets.now.left.now.latches + length nets.now.right.now.latches }
    requires second { j < length nets.now.left.now.latches + length nets.now.right.now.latches }
    requires conflicts { conflicts ≤ MAX_CONFLICTS }
    ensures { IfOk result (IsAnswer nets.now graph.now conflicts i j) }
{
    nets.left.keeps();
    nets.right.keeps();
    graph.aig.keeps();
    let left = nets.next(i);
    let right = nets.next(j);
    let x = graph.lit(nets, left);
    let y = graph.lit(nets, right);
    if x.0 == y.0 {
        return Ok(Answer::Agree);
    }
    let compared = graph.compare(alloc, nets, left, right, conflicts)?;
    let Comparison { vars, decision } = compared;
    match decision {
        Decision::Same(_) => Ok(Answer::Agree),
        Decision::Limit(proof) => Ok(Answer::Limit(proof)),
        Decision::Differs(bits) => {
            let made = graph.next_bits(alloc, nets, vars.as_slice(), bits.as_slice())?;
            Ok(Answer::Apart(made))
        }
    }
}
