//! Netlists and their latch graphs.

ghost use Rattle.std.specs.Prelude.{◌≡◌, ◌<◌, length, All};
ghost use Rattle.circuit_theory.specs.declared.Mode.TheVariants.{Plain};
ghost use Rattle.signal_graph.specs.Graph.{IsGraphIn};

use crate::words::show_counts;
use blif_read::read_design;
use flat_net::{Net, Signals};
use flatten::flatten;
use latch_graph::{LatchGraph, Weight};
use sec_base::{Bits, MAX_FILE_BYTES};
use signal_graph::inner_cone::latch_cone::none_enabled;
use std::alloc::Global;
use std::rt::HostRuntime;
use text_rows::row_text::{show, show_count};

/// The weight up to which an unfolding is weighed.
const MOST: u32 = 1_000;

/// The net of a text, if it is without a fault.
pub(crate) fn net_in(alloc: Global, text: &[u8]) -> Option<Net> {
    if text.len() > MAX_FILE_BYTES as usize {
        return None;
    }
    let Ok(design) = read_design(alloc, text) else {
        return None;
    };
    flatten(alloc, &design).ok()
}

/// Shows the depth and the weight of each output, and a cycle of latches.
pub(crate) fn show_graph(rt: &HostRuntime, net: &Net) {
    let Ok(none) = none_enabled(rt.alloc(), net) else {
        return show(rt, b"lost");
    };
    match LatchGraph::new(rt.alloc(), net, &none) {
        Ok(graph) => {
            show_outputs(rt, net, &graph);
            show_cycle(rt, net, &graph, &none);
        }
        Err(_) => show(rt, b"lost"),
    }
}

fn show_outputs(rt: &HostRuntime, net: &Net, graph: &LatchGraph)
    requires { IsGraphIn Plain net.now graph.now }
{
    for place in 0..net.outputs().len() {
        show_output(rt, net, graph, place);
    }
}

/// Shows the positions of the latches of a cycle, or that there is none.
fn show_cycle(rt: &HostRuntime, net: &Net, graph: &LatchGraph, none: &Bits)
    requires graph { IsGraphIn Plain net.now graph.now }
    requires none { length none.now ≡ length net.now.latches }
{
    match graph.cycle(rt.alloc(), none) {
        Ok(Some(positions)) => {
            show(rt, b"cycle");
            show_counts(rt, positions.as_slice());
        }
        Ok(None) => show(rt, b"acyclic"),
        Err(_) => show(rt, b"lost"),
    }
    show(rt, b"\n");
}

/// Shows the depth of the output, what its unfolding weighs, and that it weighs more than one less.
fn show_output(rt: &HostRuntime, net: &Net, graph: &LatchGraph, place: usize)
    requires graph { IsGraphIn Plain net.now graph.now }
    requires place { place < length net.now.outputs }
{
    net.keeps();
    let signal = net.outputs()[place].signal;
    show(rt, b"output depth");
    match graph.depth(signal) {
        Some(depth) => show_count(rt, depth as u64),
        None => show(rt, b" -"),
    }
    let mut signals = Signals::new(rt.alloc());
    match signals.push(signal) {
        Ok(()) => show_weight(rt, net, graph, &signals),
        Err(_) => show(rt, b" lost"),
    }
}

/// Shows what the unfolding of the signals weighs, and whether it weighs more than one less.
fn show_weight(rt: &HostRuntime, net: &Net, graph: &LatchGraph, signals: &Signals)
    requires graph { IsGraphIn Plain net.now graph.now }
    requires within { All (λ s. s.0 < length net.now.drivers) signals.now }
{
    show(rt, b" weight");
    let Ok(Weight::Within(weight)) = graph.weight(rt.alloc(), net, signals, MOST) else {
        return show(rt, b" over\n");
    };
    show_count(rt, weight as u64);
    match graph.weight(rt.alloc(), net, signals, weight.saturating_sub(1)) {
        Ok(Weight::Over) => show(rt, b", no less\n"),
        Ok(Weight::Within(_)) => show(rt, b", less\n"),
        Err(_) => show(rt, b" lost\n"),
    }
}
