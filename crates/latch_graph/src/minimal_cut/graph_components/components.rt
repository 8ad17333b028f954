//! The strongly connected components of the signals of a latch graph. No clause speaks of them: who uses the numbers looks whether
//! they are right.

use signal_graph::inner_cone::{Readings, components_of};
use signal_graph::{NoMemory, Node};
use std::alloc::Global;

/// What the signals of a latch graph read.
#[derive(Drop)]
struct NodeReadings<'a> {
    nodes: &'a [Node],
}

impl Readings for NodeReadings<'_> {
    fn count(&self) -> u32 {
        self.nodes.len().min(u32::MAX as usize) as u32
    }

    fn read_at(&self, signal: u32, place: usize) -> Option<u32> {
        let Some(node) = self.nodes.get(signal as usize) else {
            return None;
        };
        match node.reads.as_slice().get(place) {
            Some(read) => Some(read.0),
            None => None,
        }
    }
}

/// The number of each signal's component. A signal reads none whose component has a greater number.
pub(crate) fn numbers_of(alloc: Global, nodes: &[Node]) -> Result<Vec<u32>, NoMemory> {
    components_of(alloc, &NodeReadings { nodes })
}
