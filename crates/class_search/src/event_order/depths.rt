//! The depths of signals, and of enabled latches.

ghost use Rattle.std.specs.Prelude.{◌≡◌, ◌<◌, true, length, slice_get, Some, IfOk, OnOk};
ghost use Rattle.circuit_theory.specs.declared.Mode.TheVariants.{Event};
ghost use Rattle.circuit_theory.specs.Depth.{IsDepth, LatchesHaveDepths};
ghost use Rattle.circuit_theory.specs.Run.{IsEnabled};
ghost use Rattle.flat_net.specs.declared.parts.LatchAt.{LatchAt};
ghost use Rattle.flat_net.specs.View.{circuit_of};
ghost use Rattle.event_nodes.specs.Depths.{AreDepths};
ghost use Rattle.latch_graph.specs.signal_graph.Graph.{IsGraphIn};
ghost use Rattle.class_search.specs.event_order.Order.{IsMarkedNet};
ghost use Rattle.class_search.specs.event_order.Turns.{HavePutDepths, IsEnabledDepth};

use flat_net::{Net, Signal};
use latch_graph::LatchGraph;
use sec_base::{Bits, Ids, NoMemory};
use std::alloc::Global;

/// Whether each latch has a depth: in the graph, which leaves out the self-edges of enabled latches, no latch leads back to a cycle.
pub fn have_depths(net: &Net, graph: &LatchGraph) -> bool
    requires { IsGraphIn Event net.now graph.now }
    ensures { result ≡ true → LatchesHaveDepths (circuit_of net.now) (IsEnabled (circuit_of net.now)) }
{
    net.keeps();
    for latch in net.latches() {
        let Some(_) = graph.depth(latch.out) else {
            return false;
        };
    }
    true
}

/// The depth of each signal, where each latch has one.
pub fn signal_depths(alloc: Global, net: &Net, enabled: &Bits) -> Result<Ids, NoMemory>
    requires { IsMarkedNet net.now enabled.now }
    ensures { IfOk result (AreDepths net.now) }
{
    net.keeps();
    let graph = LatchGraph::new(alloc, net, enabled)?;
    let mut depths = Ids::new(alloc);
    for signal in 0..net.size() {
        depths.push(signal_depth(net, &graph, Signal(signal)))?;
    }
    Ok(depths)
}

/// The depth of the signal.
fn signal_depth(net: &Net, graph: &LatchGraph, s: Signal) -> u32
    requires depths { LatchesHaveDepths (circuit_of net.now) (IsEnabled (circuit_of net.now)) }
    requires graph { IsGraphIn Event net.now graph.now }
    requires signal { s.0 < length net.now.drivers }
    ensures { IsDepth (circuit_of net.now) (IsEnabled (circuit_of net.now)) s.0 result }
{
    net.keeps();
    let Some(depth) = graph.depth(s) else {
        unreachable!()
    };
    depth
}

/// Puts behind the others each latch's depth, if it is an enabled one.
pub(crate) fn put_depths(
    alloc: Global,
    net: &Net,
    enabled: &Bits,
    depths: &mut Vec<Option<u32>>,
) -> Result<(), NoMemory>
    requires { IsMarkedNet net.now enabled.now }
    ensures { OnOk result (HavePutDepths net.now depths.old.items depths.new.items) }
{
    net.keeps();
    let graph = LatchGraph::new(alloc, net, enabled)?;
    for j in 0..net.latches().len() {
        depths.push(depth_at(net, enabled, &graph, j))?;
    }
    Ok(())
}

/// The depth of the latch with this position, if it is an enabled one.
fn depth_at(net: &Net, enabled: &Bits, graph: &LatchGraph, j: usize) -> Option<u32>
    requires marked { IsMarkedNet net.now enabled.now }
    requires graph { IsGraphIn Event net.now graph.now }
    requires latch { j < length net.now.latches }
    ensures { (l : LatchAt) → slice_get net.now.latches j ≡ Some l → IsEnabledDepth (circuit_of net.now) l result }
{
    net.keeps();
    if enabled.as_slice()[j] {
        graph.depth(net.latches()[j].out)
    } else {
        None
    }
}
