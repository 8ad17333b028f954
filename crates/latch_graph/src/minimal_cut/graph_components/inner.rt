//! The readings within components.

ghost use Rattle.std.specs.Prelude.{◌≡◌, ◌^◌, ◌<◌, ◌==◌, true, length, filter, slice_index_or, IfOk};
ghost use Rattle.latch_graph.specs.minimal_cut.graph_components.Inner.{AreRanked, AreInner};

use crate::minimal_cut::graph_components::components::numbers_of;
use signal_graph::inner_cone::{are_at_most, number_at};
use signal_graph::{NoMemory, Node, Signal, Signals};
use std::alloc::Global;

/// The nodes with those of their readings that lead back to the signal that reads, and maybe some others: no cycle loses one. They tell
/// nothing of latches.
pub fn inner_nodes(alloc: Global, nodes: &[Node]) -> Result<Vec<Node>, NoMemory>
    requires { length nodes.now < 2 ^ 32 }
    ensures { IfOk result (λ inner. AreInner nodes.now inner.items) }
{
    let found = numbers_of(alloc, nodes)?;
    let labels = ranked(nodes, found.as_slice());
    within(alloc, nodes, labels)
}

/// The numbers, if no signal reads one with a greater number, or else none.
fn ranked<'a>(nodes: &[Node], found: &'a [u32]) -> &'a [u32]
    requires { length nodes.now < 2 ^ 32 }
    ensures { AreRanked nodes.now result.now }
{
    if are_ranked(nodes, found) {
        found
    } else {
        &found[..0]
    }
}

/// Whether no signal reads one with a greater number.
fn are_ranked(nodes: &[Node], labels: &[u32]) -> bool
    requires { length nodes.now < 2 ^ 32 }
    ensures { result ≡ true → AreRanked nodes.now labels.now }
{
    for s in 0..nodes.len() {
        let node = &nodes[s];
        if !are_at_most(node.reads.as_slice(), labels, number_at(labels, s as u32)) {
            return false;
        }
    }
    true
}

/// The nodes with their readings of signals of their own numbers.
fn within(alloc: Global, nodes: &[Node], labels: &[u32]) -> Result<Vec<Node>, NoMemory>
    requires few { length nodes.now < 2 ^ 32 }
    requires ranked { AreRanked nodes.now labels.now }
    ensures { IfOk result (λ inner. AreInner nodes.now inner.items) }
{
    let mut inner = Vec::with_capacity(alloc, nodes.len())?;
    for s in 0..nodes.len() {
        let node = &nodes[s];
        let label = number_at(labels, s as u32);
        let reads = same_of(alloc, node.reads.as_slice(), labels, label)?;
        inner.push(Node { reads, latch: None })?;
    }
    Ok(inner)
}

/// The signals of this number.
fn same_of(alloc: Global, reads: &[Signal], labels: &[u32], label: u32) -> Result<Signals, NoMemory>
    ensures { IfOk result (λ same. same ≡ filter (λ r. slice_index_or labels.now r.0 0 == label) reads.now) }
{
    let mut same = Signals::new(alloc);
    for read in reads {
        if !is_at(labels, *read, label) {
            continue;
        }
        same.push(*read)?;
    }
    Ok(same)
}

/// Whether the signal's number is this one.
fn is_at(labels: &[u32], read: Signal, label: u32) -> bool
    ensures { result ≡ (slice_index_or labels.now read.0 0 == label) }
{
    number_at(labels, read.0) == label
}
