//! The gates and latches of a net by their numbers, and what its signals count in an unfolding.

ghost use Rattle.std.specs.Prelude.{◌≡◌, ◌-◌, ◌^◌, ◌<◌, ◌≤◌, min, length, slice_get, Some, IfSome, IfNone};
ghost use Rattle.flat_net.specs.Cut.{latch_at};
ghost use Rattle.flat_net.specs.Weights.{gate_weight, weight_at};

use crate::net::Net;
use crate::parts::{Driver, Gate, LatchAt};
use crate::signals::Signal;

/// The gate with this number.
pub fn gate_of(net: &Net, j: u32) -> &Gate
    requires { j < length net.now.gates }
    ensures { slice_get net.now.gates j ≡ Some result.now }
{
    &net.gates()[j as usize]
}

/// The latch with this number.
pub fn latch_of(net: &Net, j: u32) -> &LatchAt
    requires { j < length net.now.latches }
    ensures there { slice_get net.now.latches j ≡ Some result.now }
    ensures is { result.now ≡ latch_at net.now j }
{
    &net.latches()[j as usize]
}

/// What the signal counts: an input or a latch 1, a gate 1 and for each row of its cover, or once where there is none, its fan-ins and 1
/// more. None exactly where that is more than the room.
pub fn weigh(net: &Net, s: Signal, room: u32) -> Option<u32>
    requires { s.0 < length net.now.drivers }
    ensures here { IfSome result (λ w. w ≡ weight_at net.now s.0) }
    ensures room { IfSome result (λ w. w ≤ room) }
    ensures none { IfNone result (room < weight_at net.now s.0) }
{
    net.keeps();
    match net.driver(s) {
        Driver::Gate(j) => within(gate_weight(net, j), room),
        _ => within(1, room),
    }
}

/// What the gate counts, or the greatest number where that doesn't fit.
fn gate_weight(net: &Net, j: u32) -> usize
    requires { j < length net.now.gates }
    ensures { result ≡ min (gate_weight net.now.covers (slice_get net.now.gates j)) (2 ^ 64 - 1) }
{
    net.keeps();
    let gate = gate_of(net, j);
    let cover = net.cover(gate.cover);
    let rows = cover.rows().len().max(1);
    let columns = cover.width() as usize + 1;
    rows.saturating_mul(columns).saturating_add(1)
}

/// The number, if it is within the room.
fn within(weight: usize, room: u32) -> Option<u32>
    ensures here { IfSome result (λ w. (w ≡ weight) × (w ≤ room)) }
    ensures none { IfNone result (room < weight) }
{
    if weight <= room as usize {
        Some(weight as u32)
    } else {
        None
    }
}
