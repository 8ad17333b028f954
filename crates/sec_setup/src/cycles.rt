//! The latch graph of a net, and a cycle of it by the names of its latches.

ghost use Rattle.std.specs.Prelude.{IfOk};
ghost use Rattle.circuit_theory.specs.declared.Mode.{Mode};
ghost use Rattle.circuit_theory.specs.declared.Mode.TheVariants.{Plain};
ghost use Rattle.latch_graph.specs.Graph.{IsGraphIn};
ghost use Rattle.sec_setup.specs.Cycles.{IsCycleOf};

use crate::cut_points::{LatchGraph, names_at};
use crate::ports::{Net, NoMemory, Words, unset_bits};
use latch_graph::none_enabled;
use std::alloc::Global;

/// The graph of the net's latches.
pub fn graph_of(alloc: Global, net: &Net) -> Result<LatchGraph, NoMemory>
    ensures { IfOk result (IsGraphIn Plain net.now) }
{
    let none = none_enabled(alloc, net)?;
    LatchGraph::new(alloc, net, &none)
}

/// A cycle of the graph, which is the net's in some mode, by the names of its latches; None exactly where there is none.
pub(crate) fn find_cycle(
    alloc: Global,
    net: &Net,
    graph: &LatchGraph,
) -> Result<Option<Words>, NoMemory>
    ghost mode: { Mode }
    requires { IsGraphIn mode net.now graph.now }
    ensures { IfOk result (IsCycleOf mode net.now) }
{
    let none = unset_bits(alloc, net.latches().len())?;
    match graph.cycle(alloc, &none)? {
        Some(positions) => Ok(Some(names_at(alloc, net, positions.as_slice())?)),
        None => Ok(None),
    }
}
