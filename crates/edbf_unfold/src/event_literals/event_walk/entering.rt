//! The frames that a place leads to.

ghost use Rattle.std.specs.Prelude.{◌≡◌, ◌+◌, ◌^◌, ◌<◌, ◌≤◌, true, false, length, slice_get, Some, Contains, IfOk};
ghost use Rattle.event_nodes.specs.flat_net.LatchAt.{LatchAt};
ghost use Rattle.event_nodes.specs.Adds.{Adds};
ghost use Rattle.edbf_unfold.specs.declared.event_literals.event_walk.frames.Put.TheVariants.{Free};
ghost use Rattle.edbf_unfold.specs.event_literals.event_walk.Ready.{IsFreeOf, IsBoundTo};
ghost use Rattle.edbf_unfold.specs.event_literals.event_walk.Walk.{IsEntry, AreWays};

use crate::event_literals::event_walk::frames::{Frame, Frames, Put, Ways};
use event_nodes::{EventCircuit, NoMemory, PlaceTable, Signal, add, latch_of};

/// Whether it is known that the signal doesn't read the latch that is put within the cycle. It is known of each one in the cone of what
/// that latch takes over.
pub(crate) fn avoids(circuit: &EventCircuit, put: Put, signal: u32) -> bool
    ensures yes { result ≡ true → IsFreeOf circuit.now.net put signal }
    ensures no { result ≡ false → IsBoundTo circuit.now.net put signal }
{
    match put {
        Put::Free => false,
        Put::Low(latch) => circuit.is_apart(signal, latch),
        Put::High(latch) => circuit.is_apart(signal, latch),
    }
}

/// The number of the frame of the same node without a latch put.
pub(crate) fn free_frame(frames: &mut Frames, id: u32, frame: Frame) -> Result<u32, NoMemory>
    requires framed { slice_get frames.old id ≡ Some frame }
    requires room { length frames.old + 1 < 2 ^ 32 }
    ensures at { IfOk result (λ k. slice_get frames.new k ≡ Some (record { node = frame.node; put = Free })) }
    ensures frames { Adds (λ f. Unit {0}) frames.old frames.new }
    ensures few_frames { length frames.new ≤ length frames.old + 1 }
{
    match frame.put {
        Put::Free => Ok(id),
        _ => {
            let put = Put::Free;
            let node = frame.node;
            let free = frames.insert(Frame { node, put })?;
            Ok(free)
        }
    }
}

/// The number of the frame, where the signal's place in it is put into the table.
fn enter(
    frames: &mut Frames,
    table: &mut PlaceTable,
    frame: Frame,
    signal: Signal,
) -> Result<u32, NoMemory>
    requires frames { length frames.old + 1 < 2 ^ 32 }
    requires table { length table.old + 1 < 2 ^ 32 }
    ensures at { IfOk result (λ id. slice_get frames.new id ≡ Some frame) }
    ensures met { IfOk result (λ id. Contains table.new (id, signal.0)) }
    ensures frames { Adds (λ f. Unit {0}) frames.old frames.new }
    ensures few_frames { length frames.new ≤ length frames.old + 1 }
    ensures adds { Adds (λ q. (slice_get frames.new q.0 ≡ Some frame) × (q.1 ≡ signal.0)) table.old table.new }
    ensures few { length table.new ≤ length table.old + 1 }
{
    let id = frames.insert(frame)?;
    add(table, id, signal)?;
    Ok(id)
}

/// The frames in which the latch with this position takes over its data at the child: one if it is a plain latch, and else one with the
/// latch as 0 and one with it as 1. The places of what it takes over are put into the table.
pub(crate) fn enter_latch(
    frames: &mut Frames,
    table: &mut PlaceTable,
    circuit: &EventCircuit,
    j: u32,
    child: u32,
) -> Result<Ways, NoMemory>
    requires latch { j < length circuit.now.net.latches }
    requires frames { length frames.old + 2 < 2 ^ 32 }
    requires table { length table.old + 2 < 2 ^ 32 }
    ensures ways { IfOk result (λ ways. (l : LatchAt) → slice_get circuit.now.net.latches j ≡ Some l → AreWays circuit.now frames.new table.new child l ways) }
    ensures frames { Adds (λ f. Unit {0}) frames.old frames.new }
    ensures few_frames { length frames.new ≤ length frames.old + 2 }
    ensures adds { (l : LatchAt) → slice_get circuit.now.net.latches j ≡ Some l → Adds (IsEntry circuit.now frames.new child l) table.old table.new }
    ensures few { length table.new ≤ length table.old + 2 }
{
    circuit.keeps();
    let latch = latch_of(circuit.net(), j);
    let signal = latch.next;
    let out = latch.out.0;
    if circuit.is_enabled(j) {
        let put = Put::Low(out);
        let onward = enter(frames, table, Frame { node: child, put }, signal)?;
        let put = Put::High(out);
        let high = enter(frames, table, Frame { node: child, put }, signal)?;
        Ok(Ways { onward, high })
    } else {
        let put = Put::Free;
        let onward = enter(frames, table, Frame { node: child, put }, signal)?;
        Ok(Ways {
            onward,
            high: onward,
        })
    }
}
