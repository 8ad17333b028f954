//! Variables of a query at event nodes.

ghost use Rattle.std.specs.Prelude.{◌≡◌, ℕ, ◌<◌, ◌≤◌, length, slice_get, Some, All, IfOk};
ghost use Rattle.event_nodes.specs.event_variables.ranked_nodes.Named.{named_ranks};
ghost use Rattle.event_under.specs.Asked.{variables_in};
ghost use Rattle.event_nodes.specs.event_variables.Variables.{variables_of};

use base_tables::PlaceTable;
use event_nodes::EventGraph;
use event_nodes::event_variables::ranked_nodes::copy_nodes;
use sec_base::NoMemory;
use std::alloc::Global;

/// The variables of a query, each an input at an event node.
pub struct NodeVariables {
    /// The event nodes, with these variables alone.
    pub events: EventGraph,
    /// Their numbers there, in the order of the query.
    pub vars: Vec<u32>,
}

/// It is let go by one call: an owner isn't taken apart field by field at each way out.
impl Drop for NodeVariables {
    fn drop(self) {
        let NodeVariables { events: _, vars: _ } = self;
    }
}

/// The variables with these numbers in a table of inputs and places among these event nodes. `NoMemory` comes also where a place is no node's.
pub fn node_variables(
    alloc: Global,
    events: &EventGraph,
    nodes: &[u32],
    places: &PlaceTable,
    vars: &[u32],
) -> Result<NodeVariables, NoMemory>
    requires nodes { All (λ n. n ≤ length events.now.children) nodes.now }
    requires within { All (λ v. v < length places.now) vars.now }
    ensures within { IfOk result (λ made. All (λ v. v < length made.events.places) made.vars.items) }
    ensures variables { IfOk result (λ made. variables_of made.events made.vars.items ≡ variables_in (named_ranks events.now.children nodes.now places.now) vars.now) }
{
    if !events.has_room(1) {
        return Err(NoMemory);
    }
    let mut made = copy_nodes(alloc, events)?;
    let mut numbers = Vec::new(alloc);
    for i in 0..vars.len() {
        let (input, rank) = places.pair(vars[i]);
        let Some(node) = node_at(nodes, rank as usize) else {
            return Err(NoMemory);
        };
        if !made.has_room(1) {
            return Err(NoMemory);
        }
        made.keeps();
        let number = made.number(input, node)?;
        made.keeps();
        numbers.push(number)?;
    }
    Ok(NodeVariables {
        events: made,
        vars: numbers,
    })
}

/// The node at this place.
fn node_at(nodes: &[u32], rank: usize) -> Option<u32>
    ensures { (n : ℕ) → result ≡ Some n → slice_get nodes.now rank ≡ Some n }
{
    if rank < nodes.len() {
        Some(nodes[rank])
    } else {
        None
    }
}
