//! What is known in one cycle.

ghost use Rattle.std.specs.Prelude.{◌≡◌, ◌<◌, ℕ, Bool, List, Option, None, length, map, slice_get, slice_index_or, IfSome};
ghost use Rattle.restart.specs.Cycle.{HasInputs, HasLatches, AreOfCycle, TakesOver};
ghost use Rattle.flat_net.specs.View.{cover_of};
ghost use Rattle.circuit_laws.specs.start_laws.Known.{cover_three};

use crate::cover::cover_three;
use flat_net::{Net, gate_of};

/// Puts what is known of each signal in a cycle, by the row of the cycle, in which the inputs stand in these columns, and by what is known
/// of the latches.
pub fn compute(
    net: &Net,
    columns: &[u32],
    row: &[bool],
    latches: &[Option<bool>],
    values: &mut [Option<bool>],
)
    requires columns { length columns.now ≡ length net.now.inputs }
    requires latches { length latches.now ≡ length net.now.latches }
    requires values { length values.old ≡ length net.now.drivers }
    ensures size { length values.new ≡ length values.old }
    ensures cycle { AreOfCycle net.now columns.now row.now latches.now values.new }
{
    put_inputs(net, columns, row, values);
    put_latches(net, latches, values);
    put_gates(net, values);
}

/// Puts the bits of the inputs that the row has a column for.
fn put_inputs(net: &Net, columns: &[u32], row: &[bool], values: &mut [Option<bool>])
    requires columns { length columns.now ≡ length net.now.inputs }
    requires values { length values.old ≡ length net.now.drivers }
    ensures size { length values.new ≡ length values.old }
    ensures put { HasInputs net.now columns.now row.now values.new }
{
    net.keeps();
    for (i, port) in net.inputs().iter().enumerate() {
        values[port.signal.0 as usize] = bit_at(row, columns[i]);
    }
}

/// The bit in the column of the row, where there is one.
fn bit_at(row: &[bool], column: u32) -> Option<bool>
    ensures { result ≡ slice_get row.now column }
{
    row.get(column as usize).copied()
}

/// Puts what is known of the latches.
fn put_latches(net: &Net, latches: &[Option<bool>], values: &mut [Option<bool>])
    requires latches { length latches.now ≡ length net.now.latches }
    requires values { length values.old ≡ length net.now.drivers }
    ensures size { length values.new ≡ length values.old }
    ensures inputs { (columns : List ℕ) (row : List Bool) → HasInputs net.now columns row values.old → HasInputs net.now columns row values.new }
    ensures put { HasLatches net.now latches.now values.new }
{
    net.keeps();
    for (j, latch) in net.latches().iter().enumerate() {
        values[latch.out.0 as usize] = latches[j];
    }
}

/// Puts what the gates' covers make of what is known.
fn put_gates(net: &Net, values: &mut [Option<bool>])
    requires values { length values.old ≡ length net.now.drivers }
    ensures size { length values.new ≡ length values.old }
    ensures put { (columns : List ℕ) (row : List Bool) (latches : List (Option Bool)) → HasInputs net.now columns row values.old → HasLatches net.now latches values.old → AreOfCycle net.now columns row latches values.new }
{
    net.keeps();
    for (j, gate) in net.gates().iter().enumerate() {
        let value = gate_three(net, j as u32, values);
        values[gate.out.0 as usize] = value;
    }
}

/// What the gate's cover makes of what is known.
fn gate_three(net: &Net, gate: u32, values: &[Option<bool>]) -> Option<bool>
    requires gate { gate < length net.now.gates }
    requires values { length values.now ≡ length net.now.drivers }
    ensures { IfSome (slice_get net.now.gates gate) (λ g. result ≡ cover_three (cover_of net.now.covers g) (map (λ f. slice_index_or values.now f.0 None) g.fanins)) }
{
    net.keeps();
    let gate = gate_of(net, gate);
    let cover = net.cover(gate.cover);
    cover_three(cover, gate.fanins.as_slice(), values)
}

/// Puts what is known of each latch in the next cycle: what is known of its data now.
pub fn take_over(net: &Net, values: &[Option<bool>], latches: &mut [Option<bool>])
    requires values { length values.now ≡ length net.now.drivers }
    requires latches { length latches.old ≡ length net.now.latches }
    ensures size { length latches.new ≡ length latches.old }
    ensures taken { TakesOver net.now values.now latches.new }
{
    net.keeps();
    for (j, latch) in net.latches().iter().enumerate() {
        latches[j] = values[latch.next.0 as usize];
    }
}
