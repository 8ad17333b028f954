//! Which of two words read a node. No clause says which.

use aig::{Aig, Lit, NoMemory, Node};
use std::alloc::Global;

/// Read by the left word.
pub(crate) const LEFT: u8 = 1;

/// Read by the right one.
pub(crate) const RIGHT: u8 = 2;

/// For each node of the graph the words that read it.
pub(crate) fn sides_of(
    alloc: Global,
    graph: &Aig,
    left: &[Lit],
    right: &[Lit],
) -> Result<Vec<u8>, NoMemory> {
    let mut sides = vec![in alloc; 0u8; graph.size() as usize]?;
    mark_word(sides.as_mut_slice(), left, LEFT);
    mark_word(sides.as_mut_slice(), right, RIGHT);
    mark_below(graph, sides.as_mut_slice());
    Ok(sides)
}

/// The words that read the node, none where it is a later one.
pub(crate) fn sides_at(sides: &[u8], n: u32) -> u8 {
    sides.get(n as usize).copied().unwrap_or(0)
}

/// Marks the node as one that these words read too, where the graph has so many nodes by now.
pub(crate) fn mark_later(sides: &mut Vec<u8>, size: u32, n: u32, by: u8) -> Result<(), NoMemory> {
    for _ in sides.len()..size as usize {
        sides.push(0)?;
    }
    mark(sides.as_mut_slice(), n, by);
    Ok(())
}

/// Marks the word's own nodes.
fn mark_word(sides: &mut [u8], word: &[Lit], by: u8) {
    for i in 0..word.len() {
        mark(sides, word[i].node(), by);
    }
}

/// Marks what marked nodes read, from the last node down.
fn mark_below(graph: &Aig, sides: &mut [u8]) {
    for k in 0..graph.size() {
        let n = graph.size() - 1 - k;
        let by = sides_at(sides, n);
        if let Node::And(left, right) = graph.node(n) {
            mark(sides, left.node(), by);
            mark(sides, right.node(), by);
        }
    }
}

/// Marks one node.
fn mark(sides: &mut [u8], n: u32, by: u8) {
    if (n as usize) < sides.len() {
        sides[n as usize] = sides[n as usize] | by;
    }
}
