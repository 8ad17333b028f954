//! The parts of a latch's cone that its load enable stands in: the gates that lead back to the latch, and what they read besides.

ghost use Rattle.std.specs.Prelude.{◌≡◌, ◌<◌, ℕ, length, slice_get, Some, IfOk};
ghost use Rattle.std.specs.List.{filter_map};
ghost use Rattle.std.specs.List.Sorted.{IsNonDecreasing, IsPermutation};
ghost use Rattle.signal_graph.specs.inner_cone.latch_cone.flat_net.LatchAt.{LatchAt};
ghost use Rattle.signal_graph.specs.inner_cone.latch_cone.Parts.{gate_at};
ghost use Rattle.signal_graph.specs.inner_cone.Inner.{AreRanked};
ghost use Rattle.signal_graph.specs.inner_cone.Sides.{AreSides};
ghost use Rattle.signal_graph.specs.inner_cone.Gates.{AreInnerGates};

use crate::inner_cone::latch_cone::{Driver, Ids, LatchAt, Net, NoMemory, Seq, Signal, Signals};
use crate::inner_cone::numbers::number_at;
use crate::inner_cone::sides::sides_of;
use crate::inner_cone::walk::walked;
use base_tables::UniqueTable;
use std::alloc::Global;

/// What a latch's next value depends on the latch by.
#[derive(Drop)]
pub struct InnerParts {
    /// Signals that don't lead back to the latch, by which the other latches of its cone are reached.
    pub sides: Signals,
    /// The positions of the gates that lead back to it, none behind a gate that reads it, and maybe more of its cone.
    pub gates: Ids,
}

/// These parts of the latch's cone.
pub fn inner_parts(
    alloc: Global,
    net: &Net,
    ranks: &[u32],
    latch: u32,
) -> Result<InnerParts, NoMemory>
    requires ranked { AreRanked net.now ranks.now }
    requires latch { latch < length net.now.latches }
    ensures sides { IfOk result (λ parts. (l : LatchAt) → slice_get net.now.latches latch ≡ Some l → AreSides net.now l.next.0 l.out.0 parts.sides) }
    ensures gates { IfOk result (λ parts. (l : LatchAt) → slice_get net.now.latches latch ≡ Some l → AreInnerGates net.now l parts.gates) }
{
    net.keeps();
    let taker = &net.latches()[latch as usize];
    let sides = sides_of(alloc, net, ranks, taker.next, taker.out)?;
    let gates = gates_of(alloc, net, ranks, taker)?;
    Ok(InnerParts { sides, gates })
}

/// The positions of the gates that lead back to the latch.
fn gates_of(alloc: Global, net: &Net, ranks: &[u32], taker: &LatchAt) -> Result<Ids, NoMemory>
    requires ranked { AreRanked net.now ranks.now }
    requires within { taker.now.next.0 < length net.now.drivers }
    ensures { IfOk result (AreInnerGates net.now taker.now) }
{
    net.keeps();
    let least = number_at(ranks, taker.out.0);
    let seen = walked(alloc, net, ranks, least, taker.next)?;
    gates_among(alloc, net, &seen)
}

/// The positions of the gates that drive these signals, in order.
fn gates_among(alloc: Global, net: &Net, seen: &UniqueTable<u32>) -> Result<Ids, NoMemory>
    requires { (i s : ℕ) → slice_get seen.now i ≡ Some s → s < length net.now.drivers }
    ensures { IfOk result (λ gates. IsNonDecreasing gates × IsPermutation (filter_map (gate_at net.now) seen.now) gates) }
{
    let mut gates = Vec::new(alloc);
    for at in 0..seen.len() {
        if let Driver::Gate(j) = net.driver(Signal(seen.key(at))) {
            gates.push(j)?;
        }
    }
    gates.sort()?;
    Ok(Seq::from_vec(gates))
}
