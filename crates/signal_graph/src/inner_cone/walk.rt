//! The walk through what leads back to a signal.

ghost use Rattle.std.specs.Prelude.{◌≡◌, ◌<◌, ◌⊎◌, ℕ, [], length, slice_get, Some, Contains, IfOk, OnOk};
ghost use Rattle.signal_graph.specs.inner_cone.latch_cone.circuit_theory.Circuit.{Reads, Reaches};
ghost use Rattle.signal_graph.specs.inner_cone.latch_cone.flat_net.Signal.{Signal};
ghost use Rattle.signal_graph.specs.inner_cone.latch_cone.flat_net.View.{NetView, circuit_of};
ghost use Rattle.signal_graph.specs.inner_cone.latch_cone.Cones.{AreSome, AreRead, Stay};
ghost use Rattle.signal_graph.specs.inner_cone.Inner.{AreRanked, AreInside, IsLow, AreHigh, IsHighPut};

use crate::inner_cone::latch_cone::{Driver, Net, NoMemory, Signal};
use crate::inner_cone::numbers::number_at;
use base_tables::UniqueTable;
use std::alloc::Global;

/// The signals that are reached from one backwards through gates and lead back to another, and maybe more of those that are
/// reached, increasing. It looks at no others but what these read.
pub fn inside(
    alloc: Global,
    net: &Net,
    ranks: &[u32],
    from: Signal,
    own: Signal,
) -> Result<Vec<u32>, NoMemory>
    requires within { from.0 < length net.now.drivers }
    requires ranked { AreRanked net.now ranks.now }
    ensures { IfOk result (λ signals. AreInside net.now from.0 own.0 signals.items) }
{
    let least = number_at(ranks, own.0);
    let seen = walked(alloc, net, ranks, least, from)?;
    let mut sorted = Vec::from_slice(alloc, seen.as_slice())?;
    sorted.sort()?;
    Ok(sorted)
}

/// The signals that are reached through those that have at least this number.
pub(crate) fn walked(
    alloc: Global,
    net: &Net,
    ranks: &[u32],
    least: u32,
    from: Signal,
) -> Result<UniqueTable<u32>, NoMemory>
    requires { from.0 < length net.now.drivers }
    ensures { IfOk result (λ seen. AreHigh net.now ranks.now least from.0 seen) }
{
    let mut seen = UniqueTable::new(alloc, u32::MAX);
    put_walked(net, &mut seen, ranks, least, from)?;
    Ok(seen)
}

/// Puts these signals where none is met yet.
fn put_walked(
    net: &Net,
    seen: &mut UniqueTable<u32>,
    ranks: &[u32],
    least: u32,
    from: Signal,
) -> Result<(), NoMemory>
    requires within { from.0 < length net.now.drivers }
    requires empty { seen.old ≡ [] }
    ensures { OnOk result (AreHigh net.now ranks.now least from.0 seen.new) }
{
    net.keeps();
    put_high(seen, ranks, least, from.0)?;
    let mut at = 0;
    while at < seen.len() {
        let signal = seen.key(at);
        put_reads(net, seen, ranks, least, Signal(signal))?;
        at += 1;
    }
    Ok(())
}

/// Puts what a signal reads through a gate, but for what has a lesser number.
fn put_reads(
    net: &Net,
    seen: &mut UniqueTable<u32>,
    ranks: &[u32],
    least: u32,
    signal: Signal,
) -> Result<(), NoMemory>
    requires { signal.0 < length net.now.drivers }
    ensures stay { OnOk result (Stay seen.old seen.new) }
    ensures some { OnOk result ((from : ℕ) → Reaches (circuit_of net.now) from signal.0 → AreSome net.now from seen.old → AreSome net.now from seen.new) }
    ensures there { OnOk result ((r : ℕ) → Reads (circuit_of net.now) signal.0 r → Contains seen.new r ⊎ IsLow ranks.now least r) }
{
    net.keeps();
    match net.driver(signal) {
        Driver::Gate(j) => {
            let fanins = net.gates()[j as usize].fanins.as_slice();
            put_all(seen, ranks, least, fanins)?;
            Ok(())
        }
        _ => Ok(()),
    }
}

/// Puts these signals, but for those that have a lesser number.
fn put_all(
    seen: &mut UniqueTable<u32>,
    ranks: &[u32],
    least: u32,
    reads: &[Signal],
) -> Result<(), NoMemory>
    ensures stay { OnOk result (Stay seen.old seen.new) }
    ensures some { OnOk result ((n : NetView) (from : ℕ) → AreRead n from reads.now → AreSome n from seen.old → AreSome n from seen.new) }
    ensures there { OnOk result ((k : ℕ) (r : Signal) → slice_get reads.now k ≡ Some r → Contains seen.new r.0 ⊎ IsLow ranks.now least r.0) }
{
    for signal in reads.iter() {
        put_high(seen, ranks, least, signal.0)?;
    }
    Ok(())
}

/// Puts the signal last if it is new, but not where it has a lesser number.
fn put_high(
    seen: &mut UniqueTable<u32>,
    ranks: &[u32],
    least: u32,
    signal: u32,
) -> Result<(), NoMemory>
    ensures { OnOk result (IsHighPut ranks.now least seen.old seen.new signal) }
{
    if number_at(ranks, signal) < least {
        return Ok(());
    }
    seen.insert(signal)?;
    Ok(())
}
