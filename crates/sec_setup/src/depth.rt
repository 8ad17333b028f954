//! The depth of a pair of signals.

ghost use Rattle.std.specs.Prelude.{◌<◌, length};
ghost use Rattle.circuit_theory.specs.declared.Mode.TheVariants.{Plain};
ghost use Rattle.circuit_theory.specs.Depth.{IsDepth};
ghost use Rattle.circuit_theory.specs.Fits.{IsPairDepth};
ghost use Rattle.circuit_theory.specs.Run.{NoneEnabled};
ghost use Rattle.sec_setup.specs.ports.flat_net.View.{circuit_of};
ghost use Rattle.latch_graph.specs.signal_graph.Graph.{IsGraphIn};
ghost use Rattle.sec_setup.specs.Cycles.{IsAcyclic};
ghost use Rattle.sec_setup.specs.Setup.{IsSetup};

use crate::ports::{Net, Signal};
use crate::setup::Setup;
use latch_graph::LatchGraph;

/// The greater sequential depth of a signal of A and one of B, in cycles, in the nets that are compared.
pub fn pair_depth(setup: &Setup<'_>, s: Signal, t: Signal) -> u32
    requires setup { IsSetup setup.now }
    requires left { s.0 < length setup.now.left.now.drivers }
    requires right { t.0 < length setup.now.right.now.drivers }
    ensures { IsPairDepth (circuit_of setup.now.left.now) (circuit_of setup.now.right.now) s.0 t.0 result }
{
    let left_depth = depth_of(setup.left, setup.left_graph, s);
    let right_depth = depth_of(setup.right, setup.right_graph, t);
    left_depth.max(right_depth)
}

/// The depth of a signal of a net whose latch graph has no cycle.
fn depth_of(net: &Net, graph: &LatchGraph, s: Signal) -> u32
    requires graph { IsGraphIn Plain net.now graph.now }
    requires acyclic { IsAcyclic net.now }
    requires signal { s.0 < length net.now.drivers }
    ensures { IsDepth (circuit_of net.now) NoneEnabled s.0 result }
{
    net.keeps();
    let Some(depth) = graph.depth(s) else {
        unreachable!()
    };
    depth
}
