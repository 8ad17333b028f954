//! What the signals that lead back to a latch read besides.

ghost use Rattle.std.specs.Prelude.{◌≡◌, ◌≢◌, ◌<◌, ℕ, length, slice_get, slice_index_or, Some, Contains, IfOk, OnOk};
ghost use Rattle.signal_graph.specs.inner_cone.latch_cone.circuit_theory.Circuit.{Reads, Reaches, IsSource};
ghost use Rattle.signal_graph.specs.inner_cone.latch_cone.flat_net.Signal.{Signal};
ghost use Rattle.signal_graph.specs.inner_cone.latch_cone.flat_net.View.{NetView, circuit_of};
ghost use Rattle.signal_graph.specs.inner_cone.latch_cone.Cones.{AreRead};
ghost use Rattle.signal_graph.specs.inner_cone.Inner.{AreRanked, AreHigh, IsLow};
ghost use Rattle.signal_graph.specs.inner_cone.Sides.{AreSides, AreSomeSides, IsLowPut, AreKept};

use crate::inner_cone::latch_cone::{Driver, Net, NoMemory, Signal, Signals};
use crate::inner_cone::numbers::number_at;
use crate::inner_cone::walk::walked;
use std::alloc::Global;

/// Signals that are reached from one backwards through gates and don't lead back to another, by which all inputs and other latches are
/// reached that are reached at all. Some may stand there twice.
pub fn sides_of(
    alloc: Global,
    net: &Net,
    ranks: &[u32],
    from: Signal,
    own: Signal,
) -> Result<Signals, NoMemory>
    requires within { from.0 < length net.now.drivers }
    requires ranked { AreRanked net.now ranks.now }
    ensures { IfOk result (AreSides net.now from.0 own.0) }
{
    let least = number_at(ranks, own.0);
    let seen = walked(alloc, net, ranks, least, from)?;
    sides_among(alloc, net, ranks, seen.as_slice(), from, own)
}

/// The same, where these are the signals that are reached from the first through those that have at least the second one's number.
fn sides_among(
    alloc: Global,
    net: &Net,
    ranks: &[u32],
    signals: &[u32],
    from: Signal,
    own: Signal,
) -> Result<Signals, NoMemory>
    requires within { from.0 < length net.now.drivers }
    requires ranked { AreRanked net.now ranks.now }
    requires high { AreHigh net.now ranks.now (slice_index_or ranks.now own.0 0) from.0 signals.now }
    ensures { IfOk result (AreSides net.now from.0 own.0) }
{
    net.keeps();
    let mut sides = Signals::new(alloc);
    let least = number_at(ranks, own.0);
    put_low(&mut sides, ranks, least, from)?;
    for signal in signals.iter() {
        put_sides(net, &mut sides, ranks, own, Signal(*signal))?;
    }
    Ok(sides)
}

/// Puts the signal if it has a lesser number.
fn put_low(sides: &mut Signals, ranks: &[u32], least: u32, signal: Signal) -> Result<(), NoMemory>
    ensures { OnOk result (IsLowPut ranks.now least sides.old sides.new signal) }
{
    if number_at(ranks, signal.0) >= least {
        return Ok(());
    }
    sides.push(signal)?;
    Ok(())
}

/// Puts those of the signals that have a lesser number.
fn put_lows(
    sides: &mut Signals,
    ranks: &[u32],
    least: u32,
    reads: &[Signal],
) -> Result<(), NoMemory>
    ensures kept { OnOk result (AreKept sides.old sides.new) }
    ensures some { OnOk result ((n : NetView) (from own : ℕ) → AreRead n from reads.now → AreSomeSides n ranks.now least from own sides.old → AreSomeSides n ranks.now least from own sides.new) }
    ensures there { OnOk result ((k : ℕ) (r : Signal) → slice_get reads.now k ≡ Some r → IsLow ranks.now least r.0 → Contains sides.new r) }
{
    for signal in reads.iter() {
        put_low(sides, ranks, least, *signal)?;
    }
    Ok(())
}

/// Puts what the signal reads and has a lesser number than `own`, or the signal itself, if it is an input's or another latch's.
fn put_sides(
    net: &Net,
    sides: &mut Signals,
    ranks: &[u32],
    own: Signal,
    signal: Signal,
) -> Result<(), NoMemory>
    requires { signal.0 < length net.now.drivers }
    ensures kept { OnOk result (AreKept sides.old sides.new) }
    ensures some { OnOk result ((from : ℕ) → Reaches (circuit_of net.now) from signal.0 → AreSomeSides net.now ranks.now (slice_index_or ranks.now own.0 0) from own.0 sides.old → AreSomeSides net.now ranks.now (slice_index_or ranks.now own.0 0) from own.0 sides.new) }
    ensures reads { OnOk result ((q : ℕ) → Reads (circuit_of net.now) signal.0 q → IsLow ranks.now (slice_index_or ranks.now own.0 0) q → Contains sides.new (record { 0 = q })) }
    ensures source { OnOk result (IsSource (circuit_of net.now) signal.0 → signal.0 ≢ own.0 → Contains sides.new signal) }
{
    net.keeps();
    match net.driver(signal) {
        Driver::Gate(j) => {
            let fanins = net.gates()[j as usize].fanins.as_slice();
            put_lows(sides, ranks, number_at(ranks, own.0), fanins)?;
            Ok(())
        }
        _ => {
            if signal.0 == own.0 {
                return Ok(());
            }
            sides.push(signal)?;
            Ok(())
        }
    }
}
