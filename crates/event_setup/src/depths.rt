//! The depths of pairs of signals, and of latches, where self-edges of enabled latches don't count.

ghost use Rattle.std.specs.Prelude.{◌<◌, length, All, IfOk};
ghost use Rattle.std.specs.List.{AllZip};
ghost use Rattle.circuit_theory.specs.declared.Mode.TheVariants.{Event};
ghost use Rattle.circuit_theory.specs.Depth.{IsDepth};
ghost use Rattle.circuit_theory.specs.Run.{IsEnabled};
ghost use Rattle.flat_net.specs.View.{circuit_of};
ghost use Rattle.signal_graph.specs.Graph.{IsGraphIn};
ghost use Rattle.sec_setup.specs.Setup.{AreGraphedIn};
ghost use Rattle.event_setup.specs.Choosing.{IsAcyclic};
ghost use Rattle.event_setup.specs.Setup.{HaveDepths, IsPairDepthIn, IsPairWithin};

use flat_net::{Net, Signal};
use latch_graph::LatchGraph;
use sec_base::{Ids, NoMemory};
use sec_setup::Nets;
use sec_setup::ports::SignalPair;
use std::alloc::Global;

/// The depth of each pair, in cycles, in nets in which no latch lies on a cycle.
pub(crate) fn pair_depths(
    alloc: Global,
    nets: &Nets<'_>,
    pairs: &[SignalPair],
) -> Result<Ids, NoMemory>
    requires graphs { AreGraphedIn Event nets.now }
    requires left { IsAcyclic nets.now.left.now }
    requires right { IsAcyclic nets.now.right.now }
    requires pairs { All (IsPairWithin nets.now.left.now nets.now.right.now) pairs.now }
    ensures { IfOk result (AllZip (IsPairDepthIn nets.now.left.now nets.now.right.now) pairs.now) }
{
    let mut depths = Ids::new(alloc);
    for pair in pairs {
        depths.push(pair_depth(nets, pair))?;
    }
    Ok(depths)
}

/// The greater depth of both signals.
fn pair_depth(nets: &Nets<'_>, pair: &SignalPair) -> u32
    requires graphs { AreGraphedIn Event nets.now }
    requires left { IsAcyclic nets.now.left.now }
    requires right { IsAcyclic nets.now.right.now }
    requires pair { IsPairWithin nets.now.left.now nets.now.right.now pair.now }
    ensures { IsPairDepthIn nets.now.left.now nets.now.right.now pair.now result }
{
    let left_depth = depth_of(nets.left, nets.left_graph, pair.left);
    let right_depth = depth_of(nets.right, nets.right_graph, pair.right);
    left_depth.max(right_depth)
}

/// Tells a proof that each latch has a depth where none lies on a cycle, by a look at each.
pub(crate) fn have_depths(net: &Net, graph: &LatchGraph)
    requires graph { IsGraphIn Event net.now graph.now }
    requires acyclic { IsAcyclic net.now }
    ensures { HaveDepths net.now }
{
    net.keeps();
    for latch in net.latches() {
        let _ = depth_of(net, graph, latch.out);
    }
}

/// The depth of a signal.
fn depth_of(net: &Net, graph: &LatchGraph, s: Signal) -> u32
    requires graph { IsGraphIn Event net.now graph.now }
    requires acyclic { IsAcyclic net.now }
    requires signal { s.0 < length net.now.drivers }
    ensures { IsDepth (circuit_of net.now) (IsEnabled (circuit_of net.now)) s.0 result }
{
    net.keeps();
    let Some(depth) = graph.depth(s) else {
        unreachable!()
    };
    depth
}
