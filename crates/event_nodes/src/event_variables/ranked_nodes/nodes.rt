//! Event nodes without functions.

ghost use Rattle.std.specs.Prelude.{◌≡◌, ◌+◌, ◌^◌, ◌<◌, [], length, IfOk, OnOk};
ghost use Rattle.event_nodes.specs.event_variables.ranked_nodes.Ranks.{HasZeros};

use crate::EventGraph;
use sec_base::NoMemory;
use std::alloc::Global;

/// An event graph with the same event nodes, no function, and the input 0 at each node as a variable, by the node's number.
pub(crate) fn nodes_alone(alloc: Global, events: &EventGraph) -> Result<EventGraph, NoMemory>
    requires room { length events.now.children + 2 < 2 ^ 32 }
    ensures children { IfOk result (λ made. made.children ≡ events.now.children) }
    ensures zeros { IfOk result (λ made. HasZeros (length events.now.children + 1) made.places) }
{
    let mut made = copy_nodes(alloc, events)?;
    put_zeros(&mut made)?;
    Ok(made)
}

/// The same event nodes, by the same numbers, and nothing else.
pub fn copy_nodes(alloc: Global, events: &EventGraph) -> Result<EventGraph, NoMemory>
    requires room { length events.now.children + 2 < 2 ^ 32 }
    ensures children { IfOk result (λ made. made.children ≡ events.now.children) }
    ensures places { IfOk result (λ made. made.places ≡ []) }
{
    events.keeps();
    let mut made = EventGraph::new(alloc)?;
    for n in 0..events.nodes() {
        let (parent, class) = events.step(n + 1);
        made.child(parent, class)?;
    }
    Ok(made)
}

/// Puts the input 0 at each node, in order.
fn put_zeros(events: &mut EventGraph) -> Result<(), NoMemory>
    requires room { length events.old.children + 2 < 2 ^ 32 }
    requires none { events.old.places ≡ [] }
    ensures children { events.new.children ≡ events.old.children }
    ensures zeros { OnOk result (HasZeros (length events.old.children + 1) events.new.places) }
{
    let count = events.nodes() + 1;
    for n in 0..count {
        events.number(0, n)?;
    }
    Ok(())
}
