//! Netlists as circuits whose latches are all of class 0.

ghost use Rattle.std.specs.Prelude.{◌≡◌, length, All, IfOk, IfSome};
ghost use Rattle.class_search.specs.event_order.Order.{IsMarkedNet};
ghost use Rattle.call_rows.specs.Starts.{IsStart};

use crate::latches::numbers::numbers;
use circuit_theory::Mode;
use class_search::event_order::{have_depths, signal_depths};
use event_nodes::EventCircuit;
use flat_net::Net;
use latch_graph::LatchGraph;
use latch_kinds::kinds_in;
use sec_base::{Bits, DEFAULT_CONFLICTS, Ids, NoMemory};
use signal_graph::inner_cone::latch_cone::enabled_among;
use std::alloc::Global;

/// The net as a circuit, where no cycle of latches is left but the self-edges of enabled ones.
pub(crate) fn circuit_of(alloc: Global, net: Net) -> Option<EventCircuit>
    ensures { IfSome result IsStart }
{
    let bits = marks_of(alloc, &net)?;
    begun(alloc, net, bits).ok()
}

/// The bits of the enabled latches, where no cycle of latches is left but their self-edges.
fn marks_of(alloc: Global, net: &Net) -> Option<Bits>
    ensures { IfSome result (IsMarkedNet net.now) }
{
    let Ok(kinds) = kinds_in(alloc, net, Mode::Event, DEFAULT_CONFLICTS) else {
        return None;
    };
    let Ok(bits) = enabled_among(alloc, kinds.as_slice()) else {
        return None;
    };
    let Ok(graph) = LatchGraph::new(alloc, net, &bits) else {
        return None;
    };
    if have_depths(net, &graph) {
        Some(bits)
    } else {
        None
    }
}

/// The circuit with these enabled latches.
fn begun(alloc: Global, net: Net, enabled: Bits) -> Result<EventCircuit, NoMemory>
    requires { IsMarkedNet net enabled }
    ensures { IfOk result IsStart }
{
    net.keeps();
    let order = numbers(alloc, net.inputs().len())?;
    let classes = zeros(alloc, net.latches().len())?;
    let depths = signal_depths(alloc, &net, &enabled)?;
    Ok(EventCircuit::new(net, enabled, order, classes, depths))
}

/// So many zeros.
fn zeros(alloc: Global, count: usize) -> Result<Ids, NoMemory>
    ensures each { IfOk result (λ made. length made ≡ count) }
    ensures none { IfOk result (All (λ k. k ≡ 0)) }
{
    let mut made = Ids::new(alloc);
    for _ in 0..count {
        made.push(0)?;
    }
    Ok(made)
}
