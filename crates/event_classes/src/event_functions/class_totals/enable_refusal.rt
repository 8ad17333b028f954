//! What is answered where an enable weighs too much.

ghost use Rattle.std.specs.Prelude.{◌≡◌, ◌<◌, ◌≤◌, length, slice_get, Some};
ghost use Rattle.event_nodes.specs.event_variables.flat_net.LatchAt.{LatchAt};
ghost use Rattle.event_nodes.specs.declared.error.EventUnfoldError.TheVariants as unfold_error;
ghost use Rattle.event_nodes.specs.Nodes.{GrowsEvents, IsEventGraph};
ghost use Rattle.event_nodes.specs.Visited.{AreNodesFrom, places_weight};
ghost use Rattle.edbf_unfold.specs.event_literals.event_walk.Walk.{enable_start};
ghost use Rattle.event_classes.specs.event_functions.Refused.{HasFewNodes, IsOverweight};

use crate::event_functions::event_reach::{MOST_REACHED, reached_others};
use crate::event_functions::refusal::refusal;
use event_nodes::event_variables::{Counter, EventCircuit, EventGraph, EventUnfoldError};
use sec_base::MAX_EVENT_NODES;
use std::alloc::Global;

/// Why the enable of the latch with this position is refused, where its walk ended with this error: for more than 10,000 event nodes also where it
/// weighs too much.
pub(crate) fn enable_refusal(
    alloc: Global,
    circuit: &EventCircuit,
    events: &mut EventGraph,
    visits: &Counter,
    j: u32,
    error: EventUnfoldError,
) -> EventUnfoldError
    requires latch { j < length circuit.now.net.latches }
    requires many { error ≡ unfold_error.TooManyEvents → 10000 ≤ length events.old.children }
    requires large { error ≡ unfold_error.TooLarge → 2000000 < places_weight circuit.now.net visits.now.places }
    ensures many { result ≡ unfold_error.TooManyEvents → 10000 ≤ length events.new.children }
    ensures large { result ≡ unfold_error.TooLarge → (l : LatchAt) → slice_get circuit.now.net.latches j ≡ Some l → IsOverweight circuit.now.net visits.now.places × HasFewNodes circuit.now events.new.children (enable_start l) }
    ensures made { (l : LatchAt) → slice_get circuit.now.net.latches j ≡ Some l → AreNodesFrom circuit.now events.new.children (enable_start l) (length events.old.children) }
    ensures grows { GrowsEvents events.old events.new }
    ensures events { IsEventGraph events.old }
{
    visits.keeps();
    events.keeps();
    match error {
        EventUnfoldError::TooLarge => enable_nodes(alloc, circuit, events, j),
        EventUnfoldError::TooManyEvents => EventUnfoldError::TooManyEvents,
        EventUnfoldError::NoMemory => EventUnfoldError::NoMemory,
    }
}

/// The refusal of an enable that weighs too much: `TooManyEvents` where more than 10,000 event nodes are reached, else `TooLarge`.
fn enable_nodes(
    alloc: Global,
    circuit: &EventCircuit,
    events: &mut EventGraph,
    j: u32,
) -> EventUnfoldError
    requires latch { j < length circuit.now.net.latches }
    ensures many { result ≡ unfold_error.TooManyEvents → 10000 ≤ length events.new.children }
    ensures large { result ≡ unfold_error.TooLarge → (l : LatchAt) → slice_get circuit.now.net.latches j ≡ Some l → HasFewNodes circuit.now events.new.children (enable_start l) }
    ensures made { (l : LatchAt) → slice_get circuit.now.net.latches j ≡ Some l → AreNodesFrom circuit.now events.new.children (enable_start l) (length events.old.children) }
    ensures grows { GrowsEvents events.old events.new }
{
    if events.nodes() >= MAX_EVENT_NODES {
        return EventUnfoldError::TooManyEvents;
    }
    let told = reached_others(alloc, circuit, events, j, MOST_REACHED).is_ok();
    refusal(events.nodes(), told)
}
