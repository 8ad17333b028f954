//! Numbers of signals, so that none reads one with a greater number.

ghost use Rattle.std.specs.Prelude.{◌≡◌, ◌≤◌, true, All, slice_index_or, IfOk};
ghost use Rattle.signal_graph.specs.inner_cone.Inner.{AreRanked};

use crate::inner_cone::components::components_of;
use crate::inner_cone::latch_cone::{Ids, Net, NoMemory, Signal};
use std::alloc::Global;

/// Numbers of the net's signals: none reads one with a greater number. What isn't in the list has the number 0.
pub fn ranks(alloc: Global, net: &Net) -> Result<Ids, NoMemory>
    ensures { IfOk result (AreRanked net.now) }
{
    let found = components_of(alloc, net)?;
    if !are_ranked(net, found.as_slice()) {
        return Ok(Ids::new(alloc));
    }
    Ok(Ids::from_vec(found))
}

/// Whether no signal reads one with a greater number.
fn are_ranked(net: &Net, numbers: &[u32]) -> bool
    ensures { result ≡ true → AreRanked net.now numbers.now }
{
    net.keeps();
    let gates = net.gates();
    for j in 0..gates.len() {
        let gate = &gates[j];
        if !are_at_most(
            gate.fanins.as_slice(),
            numbers,
            number_at(numbers, gate.out.0),
        ) {
            return false;
        }
    }
    true
}

/// Whether the signals' numbers are at most this one.
pub fn are_at_most(reads: &[Signal], numbers: &[u32], most: u32) -> bool
    ensures { result ≡ true → All (λ r. slice_index_or numbers.now r.0 0 ≤ most) reads.now }
{
    for read in reads {
        if number_at(numbers, read.0) > most {
            return false;
        }
    }
    true
}

/// The number of the signal.
pub fn number_at(numbers: &[u32], signal: u32) -> u32
    ensures { result ≡ slice_index_or numbers.now signal 0 }
{
    match numbers.get(signal as usize) {
        Some(number) => *number,
        None => 0,
    }
}
