//! Whether the cycles so far are as many as the pairs are deep.

ghost use Rattle.std.specs.Prelude.{◌≡◌, ◌↔◌, ◌<◌, true, length};
ghost use Rattle.circuit_theory.specs.declared.Mode.TheVariants.{Plain};
ghost use Rattle.flat_net.specs.View.{circuit_of};
ghost use Rattle.latch_graph.specs.signal_graph.Graph.{IsGraphIn};
ghost use Rattle.cycle_search.specs.Settings.{IsSetting};
ghost use Rattle.cycle_search.specs.Depths.{HasDepthUpTo, AreDeepUpTo};

use flat_net::{Net, Signal};
use latch_graph::LatchGraph;
use sec_setup::Setup;

/// Whether each pair has a depth, and none is greater than this cycle.
pub(crate) fn reaches_depths(setup: &Setup<'_>, cycle: u32) -> bool
    requires { IsSetting setup.now }
    ensures { (result ≡ true) ↔ AreDeepUpTo setup.now cycle }
{
    setup.left.keeps();
    setup.right.keeps();
    for pair in setup.pairs.as_slice() {
        if !reaches_depth(setup.left, setup.left_graph, pair.left, cycle)
            || !reaches_depth(setup.right, setup.right_graph, pair.right, cycle)
        {
            return false;
        }
    }
    true
}

/// Whether the signal has a depth, and it isn't greater than this cycle.
fn reaches_depth(net: &Net, graph: &LatchGraph, s: Signal, cycle: u32) -> bool
    requires graph { IsGraphIn Plain net.now graph.now }
    requires signal { s.0 < length net.now.drivers }
    ensures { (result ≡ true) ↔ HasDepthUpTo (circuit_of net.now) s.0 cycle }
{
    match graph.depth(s) {
        Some(depth) => depth <= cycle,
        None => false,
    }
}
