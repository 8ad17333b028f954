//! Which nodes two literals reach, and which variable most of them read. No clause sees it.

use aig::{Lit, NoMemory, Node};
use std::alloc::Global;

/// For each node whether one of the literals reaches it.
pub(crate) fn reached(
    alloc: Global,
    nodes: &[Node],
    left: Lit,
    right: Lit,
) -> Result<Vec<bool>, NoMemory> {
    let mut marks = vec![in alloc; false; nodes.len()]?;
    mark(marks.as_mut_slice(), left);
    mark(marks.as_mut_slice(), right);
    mark_operands(marks.as_mut_slice(), nodes);
    Ok(marks)
}

/// Marks what the marked nodes read, which stands before them.
fn mark_operands(marks: &mut [bool], nodes: &[Node]) {
    let count = nodes.len();
    for k in 0..count {
        let n = count - 1 - k;
        if is_marked(marks, n)
            && let Node::And(l, r) = nodes[n]
        {
            mark(marks, l);
            mark(marks, r);
        }
    }
}

/// Marks the literal's node.
fn mark(marks: &mut [bool], l: Lit) {
    let n = l.node() as usize;
    if n < marks.len() {
        marks[n] = true;
    }
}

/// Whether the node is marked.
pub(crate) fn is_marked(marks: &[bool], n: usize) -> bool {
    n < marks.len() && marks[n]
}

/// How many nodes are marked.
pub(crate) fn count_of(marks: &[bool]) -> usize {
    let mut count = 0usize;
    for n in 0..marks.len() {
        if marks[n] {
            count = count.saturating_add(1);
        }
    }
    count
}

/// The variable that most of the marked nodes read, if at least so many do.
pub(crate) fn most_read(
    alloc: Global,
    nodes: &[Node],
    marks: &[bool],
    least: usize,
) -> Result<Option<u32>, NoMemory> {
    let mut counts = vec![in alloc; 0u32; nodes.len()]?;
    for n in 0..nodes.len() {
        if is_marked(marks, n)
            && let Node::And(l, r) = nodes[n]
        {
            count(counts.as_mut_slice(), l);
            count(counts.as_mut_slice(), r);
        }
    }
    Ok(greatest(nodes, counts.as_slice(), least))
}

/// Counts the literal's node.
fn count(counts: &mut [u32], l: Lit) {
    let n = l.node() as usize;
    if n < counts.len() {
        counts[n] = counts[n].saturating_add(1);
    }
}

/// The variable of the node with the greatest count, if that is at least this one.
fn greatest(nodes: &[Node], counts: &[u32], least: usize) -> Option<u32> {
    let mut found = None;
    let mut most = 0;
    for n in 0..nodes.len().min(counts.len()) {
        if counts[n] > most
            && counts[n] as usize >= least
            && let Node::Input(v) = nodes[n]
        {
            most = counts[n];
            found = Some(v);
        }
    }
    found
}
