//! The variables of the inputs and latches that a signal is reached from.

ghost use Rattle.std.specs.Prelude.{◌<◌, length, IfOk};
ghost use Rattle.block_refine.specs.latch_blocks.Signals.{AreVariables, AreLeaves, AreMerged};

use crate::latch_blocks::variables::{Variables, variable_at};
use flat_net::{Net, Signal};
use sec_base::{Ids, NoMemory, Seq};
use signal_graph::inner_cone::latch_cone::reached;
use std::alloc::Global;

/// The variables of exactly the inputs and latches that the signal is reached from, backwards through gates.
pub fn leaves(
    alloc: Global,
    net: &Net,
    variables: &Variables,
    from: Signal,
) -> Result<Vec<u32>, NoMemory>
    requires signal { from.0 < length net.now.drivers }
    requires variables { AreVariables net.now variables.now }
    ensures { IfOk result (λ found. AreLeaves net.now variables.now from.0 found.items) }
{
    let seen = reached(alloc, net, from)?;
    let mut found = Vec::new(alloc);
    for s in seen.as_slice() {
        if let Some(variable) = variable_at(net, variables, Signal(*s)) {
            found.push(variable)?;
        }
    }
    Ok(found)
}

/// The variables that one of both lists has, each once, increasing.
pub fn merged(left: Vec<u32>, right: &[u32]) -> Result<Ids, NoMemory>
    ensures { IfOk result (AreMerged left.items right.now) }
{
    let mut all = left;
    all.extend_from_slice(right)?;
    all.sort()?;
    all.dedup();
    Ok(Seq::from_vec(all))
}
