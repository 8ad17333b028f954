//! The choice of the latches that are cut open.

ghost use Rattle.std.specs.Prelude.{IfOk};
ghost use Rattle.circuit_theory.specs.declared.Mode.TheVariants.{Event};
ghost use Rattle.signal_graph.specs.Graph.{IsGraphIn};
ghost use Rattle.sec_setup.specs.Choosing.{ChosenIn};
ghost use Rattle.event_setup.specs.Recovered.{AreBothMarked, AreMarked};

use crate::enables::EnabledLatches;
use flat_net::Net;
use latch_graph::LatchGraph;
use sec_base::{Bits, NoMemory};
use sec_setup::cut_points::Exposure;
use sec_setup::{Nets, SetupError, choose};
use std::alloc::Global;

/// The graph of the net's latches without the self-edges of the enabled ones.
pub(crate) fn event_graph(alloc: Global, net: &Net, enabled: &Bits) -> Result<LatchGraph, NoMemory>
    requires { AreMarked net.now enabled.now }
    ensures { IfOk result (IsGraphIn Event net.now) }
{
    LatchGraph::new(alloc, net, enabled)
}

/// The latches that are cut open: a minimal cut where latches may be cut open, and else none, so that a cycle is refused, A's first. Self-edges of
/// enabled latches don't count.
pub(crate) fn choose_latches(
    alloc: Global,
    a: &Net,
    b: &Net,
    enabled: &EnabledLatches,
    may_cut: bool,
) -> Result<Exposure, SetupError>
    requires { AreBothMarked a.now b.now enabled.now }
    ensures { ChosenIn Event a.now b.now may_cut result }
{
    let left_graph = event_graph(alloc, a, &enabled.left)?;
    let right_graph = event_graph(alloc, b, &enabled.right)?;
    let nets = Nets {
        left: a,
        right: b,
        left_graph: &left_graph,
        right_graph: &right_graph,
    };
    choose(alloc, &nets, may_cut)
}
