//! Which signals read a signal.

ghost use Rattle.std.specs.Prelude.{◌≡◌, ℕ, ◌+◌, ◌^◌, ◌<◌, [], ◌∷◌, ◌++◌, None, length, slice_get, Some, IfOk, OnOk};
ghost use Rattle.latch_graph.specs.minimal_cut.graph_components.flat_net.Signal.{Signal};
ghost use Rattle.latch_graph.specs.minimal_cut.graph_components.Node.{Node};
ghost use Rattle.latch_graph.specs.minimal_cut.Readers.{AreReaders, AreReadersUpTo};

use crate::minimal_cut::graph_components::{NoMemory, Node, Signal, Signals};
use std::alloc::Global;

/// The nodes with all readings turned round: each signal has those that read it.
pub(crate) fn readers_of(alloc: Global, nodes: &[Node]) -> Result<Vec<Node>, NoMemory>
    requires few { length nodes.now < 2 ^ 32 }
    requires within { (s k : ℕ) (node : Node) (r : Signal) → slice_get nodes.now s ≡ Some node → slice_get node.reads k ≡ Some r → r.0 < length nodes.now }
    ensures { IfOk result (λ readers. AreReaders nodes.now readers.items) }
{
    let mut readers = no_readers(alloc, nodes.len())?;
    turn_all(nodes, readers.as_mut_slice())?;
    Ok(readers)
}

/// So many signals that nothing reads.
fn no_readers(alloc: Global, count: usize) -> Result<Vec<Node>, NoMemory>
    ensures size { IfOk result (λ readers. length readers.items ≡ count) }
    ensures none { IfOk result (λ readers. (r : ℕ) (node : Node) → slice_get readers.items r ≡ Some node → node.reads ≡ []) }
{
    let mut readers = Vec::new(alloc);
    for _i in 0..count {
        readers.push(Node {
            reads: Signals::new(alloc),
            latch: None,
        })?;
    }
    Ok(readers)
}

fn turn_all(nodes: &[Node], readers: &mut [Node]) -> Result<(), NoMemory>
    requires few { length nodes.now < 2 ^ 32 }
    requires within { (s k : ℕ) (node : Node) (r : Signal) → slice_get nodes.now s ≡ Some node → slice_get node.reads k ≡ Some r → r.0 < length nodes.now }
    requires none { AreReadersUpTo nodes.now 0 0 readers.old }
    ensures { OnOk result (AreReadersUpTo nodes.now (length nodes.now) 0 readers.new) }
{
    for s in 0..nodes.len() {
        turn_reads(nodes, readers, s)?;
    }
    Ok(())
}

/// Turns the readings of one signal round.
fn turn_reads(nodes: &[Node], readers: &mut [Node], s: usize) -> Result<(), NoMemory>
    requires few { length nodes.now < 2 ^ 32 }
    requires within { (s k : ℕ) (node : Node) (r : Signal) → slice_get nodes.now s ≡ Some node → slice_get node.reads k ≡ Some r → r.0 < length nodes.now }
    requires signal { s < length nodes.now }
    requires before { AreReadersUpTo nodes.now s 0 readers.old }
    ensures { OnOk result (AreReadersUpTo nodes.now (s + 1) 0 readers.new) }
{
    let node = &nodes[s];
    let reads = node.reads.as_slice();
    for k in 0..reads.len() {
        add_reader(&mut readers[reads[k].0 as usize], s as u32)?;
    }
    Ok(())
}

fn add_reader(node: &mut Node, reader: u32) -> Result<(), NoMemory>
    ensures { OnOk result (node.new.reads ≡ node.old.reads ++ record { 0 = reader } ∷ []) }
{
    node.reads.push(Signal(reader))?;
    Ok(())
}
