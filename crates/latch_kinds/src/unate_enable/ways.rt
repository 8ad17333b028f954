//! Which way signals go where a latch goes from 0 to 1 and all inputs and other latches stay, as far as the covers show it.

ghost use Rattle.std.specs.Prelude.{◌≡◌, ℕ, ◌<◌, Bool, true, false, nat_eq, map, length, slice_get, Some, All, Contains, IfOk, OnOk, IsTrue};
ghost use Rattle.std.specs.List.{list_any};
ghost use Rattle.std.specs.List.Sorted.{IsStrictlyIncreasing};
ghost use Rattle.circuit_theory.specs.Cover.{row_matches, cover_value};
ghost use Rattle.circuit_theory.specs.Circuit.{IsSource};
ghost use Rattle.indexmap.specs.IndexMap.{get};
ghost use Rattle.flat_net.specs.declared.parts.Gate.{Gate};
ghost use Rattle.flat_net.specs.View.{circuit_of, cover_of};
ghost use Rattle.latch_kinds.specs.unate_enable.Raises.{IsRaise, AreClosedTo, MayGo, GoOn, IsWayPut, PutsWay, still, both_ways, turned, at_place, way_in};

use flat_net::{Driver, Net, Signal, gate_of};
use indexmap::IndexMap;
use sec_base::{Cover, NoMemory, Word};
use std::alloc::Global;

/// What a signal may do. One that may do neither stays.
#[derive(Clone, Copy)]
pub(crate) struct Way {
    pub rises: bool,
    pub falls: bool,
}

/// Whether the covers show that the signal `next` never goes down where the signal `own`, a latch's, goes up. Where they don't it
/// may be so nonetheless. Among the signals is what they read, as far as it leads back to `own`.
pub(crate) fn never_falls(
    alloc: Global,
    net: &Net,
    signals: &[u32],
    own: Signal,
    next: Signal,
) -> Result<bool, NoMemory>
    requires increasing { IsStrictlyIncreasing signals.now }
    requires within { All (λ s. s < length net.now.drivers) signals.now }
    requires closed { AreClosedTo (circuit_of net.now) own.0 signals.now }
    requires among { Contains signals.now next.0 }
    requires source { IsSource (circuit_of net.now) own.0 }
    ensures { IfOk result (λ never. IsTrue never → (low high : ℕ → Bool) → IsRaise (circuit_of net.now) own.0 low high → low next.0 ≡ true → high next.0 ≡ true) }
{
    let mut ways = IndexMap::new(alloc);
    never_falls_in(net, &mut ways, signals, own, next)
}

/// The same, with a table of ways.
fn never_falls_in(
    net: &Net,
    ways: &mut IndexMap<u32, Way>,
    signals: &[u32],
    own: Signal,
    next: Signal,
) -> Result<bool, NoMemory>
    requires increasing { IsStrictlyIncreasing signals.now }
    requires within { All (λ s. s < length net.now.drivers) signals.now }
    requires closed { AreClosedTo (circuit_of net.now) own.0 signals.now }
    requires among { Contains signals.now next.0 }
    requires source { IsSource (circuit_of net.now) own.0 }
    ensures { IfOk result (λ never. IsTrue never → (low high : ℕ → Bool) → IsRaise (circuit_of net.now) own.0 low high → low next.0 ≡ true → high next.0 ≡ true) }
{
    let rising = Way {
        rises: true,
        falls: false,
    };
    put(ways, own.0, rising)?;
    put_ways(net, ways, signals)?;
    let way = way_at(ways, next);
    Ok(!way.falls)
}

/// Puts the ways of the signals that don't stay.
fn put_ways(net: &Net, ways: &mut IndexMap<u32, Way>, signals: &[u32]) -> Result<(), NoMemory>
    requires increasing { IsStrictlyIncreasing signals.now }
    requires within { All (λ s. s < length net.now.drivers) signals.now }
    ensures { OnOk result ((u : ℕ) (low high : ℕ → Bool) → IsSource (circuit_of net.now) u → IsRaise (circuit_of net.now) u low high → AreClosedTo (circuit_of net.now) u signals.now → MayGo (way_in (get nat_eq ways.old) u) (low u) (high u) → (s : ℕ) → Contains signals.now s → MayGo (way_in (get nat_eq ways.new) s) (low s) (high s)) }
{
    net.keeps();
    for s in signals {
        put_way(net, ways, Signal(*s))?;
    }
    Ok(())
}

/// Puts the way of the signal, if a gate drives it and it doesn't stay.
fn put_way(net: &Net, ways: &mut IndexMap<u32, Way>, s: Signal) -> Result<(), NoMemory>
    requires { s.0 < length net.now.drivers }
    ensures { OnOk result (PutsWay (circuit_of net.now) s.0 (way_in (get nat_eq ways.old)) (way_in (get nat_eq ways.new))) }
{
    net.keeps();
    match net.driver(s) {
        Driver::Gate(j) => {
            let way = gate_way(net, ways, j);
            if is_still(way) {
                return Ok(());
            }
            put(ways, s.0, way)?;
            Ok(())
        }
        _ => Ok(()),
    }
}

/// The way of what the gate with this number drives.
fn gate_way(net: &Net, ways: &IndexMap<u32, Way>, j: u32) -> Way
    requires { j < length net.now.gates }
    ensures { (gate : Gate) → slice_get net.now.gates j ≡ Some gate → GoOn (way_in (get nat_eq ways.now)) gate.fanins result (cover_value (cover_of net.now.covers gate)) }
{
    net.keeps();
    let gate = gate_of(net, j);
    let fanins = gate.fanins.as_slice();
    if are_still(ways, fanins) {
        return still();
    }
    let cover = net.cover(gate.cover);
    cover_way(ways, fanins, cover)
}

/// The way of the cover of these fan-ins.
fn cover_way(ways: &IndexMap<u32, Way>, fanins: &[Signal], cover: &Cover) -> Way
    requires { cover.now.width ≡ length fanins.now }
    ensures { GoOn (way_in (get nat_eq ways.now)) fanins.now result (cover_value cover.now) }
{
    cover.keeps();
    let found = rows_way(ways, fanins, cover.rows());
    if cover.on() { found } else { turned(found) }
}

/// The way of whether some row matches the fan-ins.
fn rows_way(ways: &IndexMap<u32, Way>, fanins: &[Signal], rows: &[Word]) -> Way
    requires { All (λ row. length row ≡ length fanins.now) rows.now }
    ensures { GoOn (way_in (get nat_eq ways.now)) fanins.now result (λ bits. list_any (λ row. row_matches row bits) rows.now) }
{
    let mut way = still();
    for i in 0..rows.len() {
        let more = row_way(ways, fanins, rows[i].as_slice());
        way = both_ways(way, more);
    }
    way
}

/// The way of whether the row matches the fan-ins.
fn row_way(ways: &IndexMap<u32, Way>, fanins: &[Signal], row: &[u8]) -> Way
    requires { length row.now ≡ length fanins.now }
    ensures { GoOn (way_in (get nat_eq ways.now)) fanins.now result (row_matches row.now) }
{
    let mut way = still();
    for k in 0..fanins.len() {
        let more = at_place(row[k], way_at(ways, fanins[k]));
        way = both_ways(way, more);
    }
    way
}

/// Whether all of the fan-ins stay.
fn are_still(ways: &IndexMap<u32, Way>, fanins: &[Signal]) -> bool
    ensures { result ≡ true → All (λ f. way_in (get nat_eq ways.now) f.0 ≡ still) fanins.now }
{
    for fanin in fanins {
        if !is_still(way_at(ways, *fanin)) {
            return false;
        }
    }
    true
}

fn is_still(way: Way) -> bool
    ensures { result ≡ true → way ≡ still }
{
    !way.rises && !way.falls
}

fn still() -> Way
    ensures { result ≡ still }
{
    Way {
        rises: false,
        falls: false,
    }
}

/// The way of what goes up where the value goes down.
fn turned(way: Way) -> Way
    ensures { result ≡ turned way }
{
    Way {
        rises: way.falls,
        falls: way.rises,
    }
}

/// The way of an and, or of an or, of two values.
fn both_ways(left: Way, right: Way) -> Way
    ensures { result ≡ both_ways left right }
{
    Way {
        rises: left.rises || right.rises,
        falls: left.falls || right.falls,
    }
}

/// The way of whether the place of a row matches a value.
fn at_place(place: u8, way: Way) -> Way
    ensures { result ≡ at_place place way }
{
    if place == b'-' {
        still()
    } else if place == b'1' {
        way
    } else {
        turned(way)
    }
}

/// The way of the signal.
fn way_at(ways: &IndexMap<u32, Way>, s: Signal) -> Way
    ensures { result ≡ way_in (get nat_eq ways.now) s.0 }
{
    match ways.get(&s.0) {
        Some(way) => *way,
        None => still(),
    }
}

/// Puts the signal's way.
fn put(ways: &mut IndexMap<u32, Way>, s: u32, way: Way) -> Result<(), NoMemory>
    ensures { OnOk result (IsWayPut (get nat_eq ways.old) s way (get nat_eq ways.new)) }
{
    ways.insert(s, way)?;
    Ok(())
}
