//! The order of event nodes.

ghost use Rattle.std.specs.Prelude.{◌≡◌, ◌↔◌, ℕ, ◌+◌, ◌<◌, length, slice_get, Some, All, Contains, IfOk};
ghost use Rattle.event_nodes.specs.event_variables.ranked_nodes.Ranks.{AreRanked};

use crate::EventGraph;
use crate::event_variables::in_order;
use crate::event_variables::ranked_nodes::nodes::nodes_alone;
use sec_base::{Ids, NoMemory};
use std::alloc::Global;

/// Event nodes in the order in which variables go: longer paths first, then by path in the order of class numbers.
#[derive(Drop)]
pub struct RankedNodes {
    /// The numbers of all nodes, in that order.
    pub nodes: Ids,
    /// For each node its place among these.
    pub ranks: Vec<u32>,
}

/// The event nodes of the graph in that order.
pub fn ranks_of(alloc: Global, events: &EventGraph) -> Result<RankedNodes, NoMemory>
    ensures { IfOk result (AreRanked events.now.children) }
{
    if !events.has_room(1) {
        return Err(NoMemory);
    }
    let alone = nodes_alone(alloc, events)?;
    alone.keeps();
    let count = events.nodes() + 1;
    let numbers = numbers_below(alloc, count)?;
    let nodes = in_order(alloc, &alone, numbers)?;
    let ranks = places_among(alloc, nodes.as_slice(), count)?;
    Ok(RankedNodes { nodes, ranks })
}

/// All numbers below this one.
fn numbers_below(alloc: Global, count: u32) -> Result<Vec<u32>, NoMemory>
    ensures { IfOk result (λ numbers. (v : ℕ) → Contains numbers.items v ↔ (v < count)) }
{
    let mut numbers = Vec::new(alloc);
    for v in 0..count {
        numbers.push(v)?;
    }
    Ok(numbers)
}

/// For each number below the count its place among these, and 0 for one that isn't there.
fn places_among(alloc: Global, numbers: &[u32], count: u32) -> Result<Vec<u32>, NoMemory>
    requires within { All (λ n. n < count) numbers.now }
    requires apart { (i j n : ℕ) → slice_get numbers.now i ≡ Some n → slice_get numbers.now j ≡ Some n → i ≡ j }
    ensures each { IfOk result (λ places. length places.items ≡ count) }
    ensures places { IfOk result (λ places. (i n : ℕ) → slice_get numbers.now i ≡ Some n → slice_get places.items n ≡ Some i) }
{
    let Ok(size) = u32::try_from(numbers.len()) else {
        return Err(NoMemory);
    };
    let mut places = vec![in alloc; 0; count as usize]?;
    for i in 0..size {
        places[numbers[i as usize] as usize] = i;
    }
    Ok(places)
}
