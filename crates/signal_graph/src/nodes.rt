//! What each signal reads.

ghost use Rattle.std.specs.Prelude.{◌≡◌, ◌<◌, ℕ, length, slice_get, Some, IfOk};
ghost use Rattle.signal_graph.specs.inner_cone.Inner.{AreRanked};
ghost use Rattle.signal_graph.specs.inner_cone.flat_net.Driver.{Driver};
ghost use Rattle.signal_graph.specs.declared.nodes.Node.{Node};
ghost use Rattle.signal_graph.specs.Graph.{IsNodeOf, AreTaken};

use crate::inner_cone::{
    Driver, Duplicate, Ids, LatchAt, Net, NoMemory, Signal, Signals, ranks, sides_of,
};
use std::alloc::Global;

/// What a signal reads: a gate its fan-ins in the same cycle, a latch one signal in the cycle before,
/// or without its self-edge what leads to the other latches of its cone and not back to it, an input nothing.
/// A latch has its position among the latches.
#[derive(Drop)]
pub struct Node {
    pub reads: Signals,
    pub latch: Option<u32>,
}

/// The nodes of all signals of the net.
pub(crate) fn nodes_of(alloc: Global, net: &Net, skipped: &[bool]) -> Result<Vec<Node>, NoMemory>
    requires { length skipped.now ≡ length net.now.latches }
    ensures size { IfOk result (λ nodes. length nodes.items ≡ length net.now.drivers) }
    ensures nodes { IfOk result (λ nodes. (s : ℕ) (d : Driver) → slice_get net.now.drivers s ≡ Some d → (node : Node) × (slice_get nodes.items s ≡ Some node) × IsNodeOf net.now skipped.now d node) }
{
    let numbers = ranks_where(alloc, net, skipped)?;
    let mut nodes = Vec::new(alloc);
    for s in 0..net.size() {
        nodes.push(node_of(alloc, net, numbers.as_slice(), skipped, Signal(s))?)?;
    }
    Ok(nodes)
}

/// Numbers of the signals, none of which reads one with a greater number. They are all 0 where no bit is set, since nobody looks at
/// them then.
fn ranks_where(alloc: Global, net: &Net, skipped: &[bool]) -> Result<Ids, NoMemory>
    ensures { IfOk result (AreRanked net.now) }
{
    if skipped.contains(&true) {
        ranks(alloc, net)
    } else {
        Ok(Ids::new(alloc))
    }
}

fn node_of(
    alloc: Global,
    net: &Net,
    numbers: &[u32],
    skipped: &[bool],
    s: Signal,
) -> Result<Node, NoMemory>
    requires ranked { AreRanked net.now numbers.now }
    requires bits { length skipped.now ≡ length net.now.latches }
    requires signal { s.0 < length net.now.drivers }
    ensures { IfOk result (λ node. (d : Driver) → slice_get net.now.drivers s.0 ≡ Some d → IsNodeOf net.now skipped.now d node) }
{
    net.keeps();
    match net.driver(s) {
        Driver::Input(_) => Ok(Node {
            reads: Signals::new(alloc),
            latch: None,
        }),
        Driver::Gate(j) => Ok(Node {
            reads: net.gates()[j as usize].fanins.copy()?,
            latch: None,
        }),
        Driver::Latch(j) => {
            let reads = taken(
                alloc,
                net,
                numbers,
                &net.latches()[j as usize],
                skipped[j as usize],
            )?;
            Ok(Node {
                reads,
                latch: Some(j),
            })
        }
    }
}

/// What a latch's node reads: what the latch takes over, or what leads to the other latches of its cone and not back to it.
fn taken(
    alloc: Global,
    net: &Net,
    numbers: &[u32],
    latch: &LatchAt,
    skipped: bool,
) -> Result<Signals, NoMemory>
    requires ranked { AreRanked net.now numbers.now }
    requires within { latch.now.next.0 < length net.now.drivers }
    ensures { IfOk result (AreTaken net.now latch.now skipped) }
{
    if skipped {
        return sides_of(alloc, net, numbers, latch.next, latch.out);
    }
    let mut reads = Signals::new(alloc);
    reads.push(latch.next)?;
    Ok(reads)
}

/// Equal latches.
pub(crate) fn copy_latches(alloc: Global, latches: &[LatchAt]) -> Result<Vec<LatchAt>, NoMemory>
    ensures { IfOk result (λ made. made.items ≡ latches.now) }
{
    let mut made = Vec::new(alloc);
    for latch in latches {
        made.push(latch.duplicate(alloc)?)?;
    }
    Ok(made)
}
