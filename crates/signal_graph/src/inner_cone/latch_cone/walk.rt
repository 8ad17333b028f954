//! Walks backwards through gates.

ghost use Rattle.std.specs.Prelude.{◌≡◌, ℕ, ◌<◌, [], true, false, length, slice_get, Some, Contains, IfOk, OnOk};
ghost use Rattle.flat_net.specs.circuit_theory.Circuit.{Reaches};
ghost use Rattle.flat_net.specs.declared.signals.Signal.{Signal};
ghost use Rattle.flat_net.specs.declared.parts.LatchAt.{LatchAt};
ghost use Rattle.flat_net.specs.View.{NetView, circuit_of};
ghost use Rattle.signal_graph.specs.inner_cone.latch_cone.Cones.{AreSome, AreReached, AreRead, AreReadsSeen, Stay, IsOther, AreOthers};

use base_tables::UniqueTable;
use flat_net::{Driver, Net, NoMemory, Signal, Signals};
use std::alloc::Global;

/// The signals that are reached from this one backwards through gates, itself among them, each once.
pub fn reached(alloc: Global, net: &Net, from: Signal) -> Result<UniqueTable<u32>, NoMemory>
    requires { from.0 < length net.now.drivers }
    ensures { IfOk result (λ seen. AreReached net.now from.0 seen) }
{
    let mut seen = UniqueTable::new(alloc, u32::MAX);
    put_reached(net, &mut seen, from)?;
    Ok(seen)
}

/// Puts these signals where none is met yet.
fn put_reached(net: &Net, seen: &mut UniqueTable<u32>, from: Signal) -> Result<(), NoMemory>
    requires within { from.0 < length net.now.drivers }
    requires empty { seen.old ≡ [] }
    ensures { OnOk result (AreReached net.now from.0 seen.new) }
{
    net.keeps();
    seen.insert(from.0)?;
    let mut at = 0;
    while at < seen.len() {
        let signal = seen.key(at);
        put_reads(net, seen, Signal(signal))?;
        at += 1;
    }
    Ok(())
}

/// The signals of the other latches in the cone of what this latch takes over.
pub fn other_latches(alloc: Global, net: &Net, latch: u32) -> Result<Signals, NoMemory>
    requires { latch < length net.now.latches }
    ensures { IfOk result (λ others. (l : LatchAt) → slice_get net.now.latches latch ≡ Some l → AreOthers net.now l others) }
{
    net.keeps();
    let taker = &net.latches()[latch as usize];
    let seen = reached(alloc, net, taker.next)?;
    others_among(alloc, net, taker.out, &seen)
}

/// The signals of other latches than this among these.
fn others_among(
    alloc: Global,
    net: &Net,
    own: Signal,
    seen: &UniqueTable<u32>,
) -> Result<Signals, NoMemory>
    requires { (i s : ℕ) → slice_get seen.now i ≡ Some s → s < length net.now.drivers }
    ensures each { IfOk result (λ others. (k : ℕ) (r : Signal) → slice_get others k ≡ Some r → IsOther net.now own.0 r.0 × Contains seen.now r.0) }
    ensures all { IfOk result (λ others. (s : ℕ) → Contains seen.now s → IsOther net.now own.0 s → (k : ℕ) × (slice_get others k ≡ Some (record { 0 = s }))) }
{
    let mut others = Signals::new(alloc);
    for at in 0..seen.len() {
        let signal = seen.key(at);
        if is_other(net, own, Signal(signal)) {
            others.push(Signal(signal))?;
        }
    }
    Ok(others)
}

/// Whether the signal is a latch's, and another one than this.
fn is_other(net: &Net, own: Signal, signal: Signal) -> bool
    requires { signal.0 < length net.now.drivers }
    ensures yes { result ≡ true → IsOther net.now own.0 signal.0 }
    ensures no { result ≡ false → IsOther net.now own.0 signal.0 → ⊥ }
{
    net.keeps();
    match net.driver(signal) {
        Driver::Latch(_) => signal.0 != own.0,
        _ => false,
    }
}

/// Puts what a signal reads through a gate.
fn put_reads(net: &Net, seen: &mut UniqueTable<u32>, signal: Signal) -> Result<(), NoMemory>
    requires { signal.0 < length net.now.drivers }
    ensures stay { OnOk result (Stay seen.old seen.new) }
    ensures some { OnOk result ((from : ℕ) → Reaches (circuit_of net.now) from signal.0 → AreSome net.now from seen.old → AreSome net.now from seen.new) }
    ensures there { OnOk result (AreReadsSeen net.now signal.0 seen.new) }
{
    net.keeps();
    match net.driver(signal) {
        Driver::Gate(j) => {
            let fanins = net.gates()[j as usize].fanins.as_slice();
            put_all(seen, fanins)?;
            Ok(())
        }
        _ => Ok(()),
    }
}

fn put_all(seen: &mut UniqueTable<u32>, reads: &[Signal]) -> Result<(), NoMemory>
    ensures stay { OnOk result (Stay seen.old seen.new) }
    ensures some { OnOk result ((n : NetView) (from : ℕ) → AreRead n from reads.now → AreSome n from seen.old → AreSome n from seen.new) }
    ensures there { OnOk result ((k : ℕ) (r : Signal) → slice_get reads.now k ≡ Some r → Contains seen.new r.0) }
{
    for signal in reads.iter() {
        seen.insert(signal.0)?;
    }
    Ok(())
}
