//! What is answered where what was counted weighs too much.

ghost use Rattle.std.specs.Prelude.{◌≡◌, ◌<◌, ◌≤◌, true, length};
ghost use Rattle.event_nodes.specs.declared.error.EventUnfoldError.TheVariants as unfold_error;
ghost use Rattle.event_nodes.specs.Nodes.{GrowsEvents, IsEventGraph};
ghost use Rattle.event_nodes.specs.Visited.{AreNodesFrom, places_weight};
ghost use Rattle.event_classes.specs.event_functions.Functions.{signal_start};
ghost use Rattle.event_classes.specs.event_functions.Refused.{HasFewNodes, IsOverweight};

use crate::event_functions::event_reach::{MOST_REACHED, reached_latches};
use event_nodes::event_variables::{Counter, EventCircuit, EventGraph, EventUnfoldError, Signal};
use sec_base::MAX_EVENT_NODES;
use std::alloc::Global;

/// Why the signal is refused, where its walk ended with this error: for more than 10,000 event nodes also where it weighs too much.
pub(crate) fn signal_refusal(
    alloc: Global,
    circuit: &EventCircuit,
    events: &mut EventGraph,
    visits: &Counter,
    s: Signal,
    error: EventUnfoldError,
) -> EventUnfoldError
    requires signal { s.0 < length circuit.now.net.drivers }
    requires many { error ≡ unfold_error.TooManyEvents → 10000 ≤ length events.old.children }
    requires large { error ≡ unfold_error.TooLarge → 2000000 < places_weight circuit.now.net visits.now.places }
    ensures many { result ≡ unfold_error.TooManyEvents → 10000 ≤ length events.new.children }
    ensures large { result ≡ unfold_error.TooLarge → IsOverweight circuit.now.net visits.now.places × HasFewNodes circuit.now events.new.children (signal_start s.0) }
    ensures made { AreNodesFrom circuit.now events.new.children (signal_start s.0) (length events.old.children) }
    ensures grows { GrowsEvents events.old events.new }
    ensures events { IsEventGraph events.old }
{
    visits.keeps();
    events.keeps();
    match error {
        EventUnfoldError::TooLarge => signal_nodes(alloc, circuit, events, s),
        EventUnfoldError::TooManyEvents => EventUnfoldError::TooManyEvents,
        EventUnfoldError::NoMemory => EventUnfoldError::NoMemory,
    }
}

/// The refusal of a signal that weighs too much: `TooManyEvents` where more than 10,000 event nodes are reached, else `TooLarge`.
fn signal_nodes(
    alloc: Global,
    circuit: &EventCircuit,
    events: &mut EventGraph,
    s: Signal,
) -> EventUnfoldError
    requires signal { s.0 < length circuit.now.net.drivers }
    ensures many { result ≡ unfold_error.TooManyEvents → 10000 ≤ length events.new.children }
    ensures large { result ≡ unfold_error.TooLarge → HasFewNodes circuit.now events.new.children (signal_start s.0) }
    ensures made { AreNodesFrom circuit.now events.new.children (signal_start s.0) (length events.old.children) }
    ensures grows { GrowsEvents events.old events.new }
{
    if events.nodes() >= MAX_EVENT_NODES {
        return EventUnfoldError::TooManyEvents;
    }
    let told = reached_latches(alloc, circuit, events, s, MOST_REACHED).is_ok();
    refusal(events.nodes(), told)
}

/// The refusal of what weighs too much, with so many event nodes besides the root, all that are reached where that is told.
pub fn refusal(nodes: u32, told: bool) -> EventUnfoldError
    ensures many { result ≡ unfold_error.TooManyEvents → 10000 ≤ nodes }
    ensures large { result ≡ unfold_error.TooLarge → (nodes < 10000) × (told ≡ true) }
{
    if nodes >= MAX_EVENT_NODES {
        return EventUnfoldError::TooManyEvents;
    }
    if told {
        EventUnfoldError::TooLarge
    } else {
        EventUnfoldError::NoMemory
    }
}
