//! What a latch takes over as a literal of a graph.

ghost use Rattle.std.specs.Prelude.{◌≡◌, ℕ, ◌+◌, ◌*◌, ◌^◌, ◌<◌, ◌≤◌, Bool, true, nat_eq, if◌then◌else◌, List, length, slice_get, Some, None, All, Contains, IfOk, IfSome, OnOk};
ghost use Rattle.std.specs.List.{AllZip, sum_by};
ghost use Rattle.std.specs.List.Sorted.{IsStrictlyIncreasing};
ghost use Rattle.circuit_theory.specs.Circuit.{Circuit, Reads, IsSource};
ghost use Rattle.indexmap.specs.IndexMap.{get};
ghost use Rattle.flat_net.specs.View.{circuit_of};
ghost use Rattle.aig.specs.Graph.{Grows};
ghost use Rattle.flat_net.specs.Weights.{gate_weight, weight_at};
ghost use Rattle.latch_kinds.specs.unate_enable.Building.{IsPut, IsKnown, AreWithin, HasTree, HasValue, Learns, HasGrown, IsGateLit, AreClosed};

use aig::{Aig, Lit};
use flat_net::{Driver, Net, Signal, gate_of};
use indexmap::IndexMap;
use sec_base::NoMemory;
use std::alloc::Global;

/// The literal of a signal's tree, where variable k stands for the k-th place and the latch is read as a bit. The signals are the signal
/// and what it is reached from.
pub(crate) fn lit_with(
    alloc: Global,
    net: &Net,
    aig: &mut Aig,
    signals: &[u32],
    places: &[u32],
    latch: Signal,
    bit: bool,
    s: Signal,
) -> Result<Lit, NoMemory>
    requires increasing { IsStrictlyIncreasing signals.now }
    requires within { All (λ s. s < length net.now.drivers) signals.now }
    requires closed { AreClosed (circuit_of net.now) latch.0 places.now signals.now }
    requires among { Contains signals.now s.0 }
    requires few { length places.now < 2 ^ 29 }
    requires room { length aig.old + length places.now + sum_by (weight_at net.now) signals.now < 2 ^ 30 }
    ensures within { IfOk result (λ x. x.0 < 2 * length aig.new) }
    ensures tree { IfOk result (λ x. HasTree (circuit_of net.now) latch.0 bit places.now aig.new s.0 x.0) }
    ensures value { IfOk result (λ x. HasValue (circuit_of net.now) latch.0 bit places.now aig.new s.0 x.0) }
    ensures grown { OnOk result (HasGrown aig.old aig.new (length places.now + sum_by (weight_at net.now) signals.now) (length places.now)) }
{
    let mut known = IndexMap::new(alloc);
    lit_over(alloc, net, aig, &mut known, signals, places, latch, bit, s)
}

/// The same, with a table of literals that has none yet.
fn lit_over(
    alloc: Global,
    net: &Net,
    aig: &mut Aig,
    known: &mut IndexMap<u32, Lit>,
    signals: &[u32],
    places: &[u32],
    latch: Signal,
    bit: bool,
    s: Signal,
) -> Result<Lit, NoMemory>
    requires empty { (q : ℕ) → get nat_eq known.old q ≡ None }
    requires increasing { IsStrictlyIncreasing signals.now }
    requires within { All (λ s. s < length net.now.drivers) signals.now }
    requires closed { AreClosed (circuit_of net.now) latch.0 places.now signals.now }
    requires among { Contains signals.now s.0 }
    requires few { length places.now < 2 ^ 29 }
    requires room { length aig.old + length places.now + sum_by (weight_at net.now) signals.now < 2 ^ 30 }
    ensures within { IfOk result (λ x. x.0 < 2 * length aig.new) }
    ensures tree { IfOk result (λ x. HasTree (circuit_of net.now) latch.0 bit places.now aig.new s.0 x.0) }
    ensures value { IfOk result (λ x. HasValue (circuit_of net.now) latch.0 bit places.now aig.new s.0 x.0) }
    ensures grown { OnOk result (HasGrown aig.old aig.new (length places.now + sum_by (weight_at net.now) signals.now) (length places.now)) }
{
    aig.keeps();
    put(known, latch.0, constant(bit))?;
    put_places(aig, known, places)?;
    put_gates(alloc, net, aig, known, signals)?;
    Ok(lit_of(known, s))
}

/// Puts the variables of the places.
fn put_places(aig: &mut Aig, known: &mut IndexMap<u32, Lit>, places: &[u32]) -> Result<(), NoMemory>
    requires within { AreWithin aig.old (get nat_eq known.old) }
    requires few { length places.now < 2 ^ 29 }
    requires room { length aig.old + length places.now < 2 ^ 30 }
    ensures learns { OnOk result ((c : Circuit ℕ) (u : ℕ) (bit : Bool) → Learns c u bit places.now aig.old aig.new (get nat_eq known.old) (get nat_eq known.new)) }
    ensures known { OnOk result (All (IsKnown (get nat_eq known.new)) places.now) }
    ensures grown { OnOk result (HasGrown aig.old aig.new (length places.now) (length places.now)) }
{
    for k in 0..places.len() {
        let lit = aig.input(k as u32)?;
        put(known, places[k], lit)?;
    }
    Ok(())
}

/// Puts the literals of the signals that gates drive. The others are known.
fn put_gates(
    alloc: Global,
    net: &Net,
    aig: &mut Aig,
    known: &mut IndexMap<u32, Lit>,
    signals: &[u32],
) -> Result<(), NoMemory>
    requires increasing { IsStrictlyIncreasing signals.now }
    requires within { All (λ s. s < length net.now.drivers) signals.now }
    requires closed { (s q : ℕ) → Contains signals.now s → Reads (circuit_of net.now) s q → Contains signals.now q }
    requires sources { (s : ℕ) → Contains signals.now s → IsSource (circuit_of net.now) s → IsKnown (get nat_eq known.old) s }
    requires lits { AreWithin aig.old (get nat_eq known.old) }
    requires room { length aig.old + sum_by (weight_at net.now) signals.now < 2 ^ 30 }
    ensures learns { OnOk result ((u : ℕ) (bit : Bool) (places : List ℕ) → Learns (circuit_of net.now) u bit places aig.old aig.new (get nat_eq known.old) (get nat_eq known.new)) }
    ensures known { OnOk result (All (IsKnown (get nat_eq known.new)) signals.now) }
    ensures grown { OnOk result (HasGrown aig.old aig.new (sum_by (weight_at net.now) signals.now) 0) }
{
    net.keeps();
    for s in signals {
        put_gate(alloc, net, aig, known, Signal(*s))?;
    }
    Ok(())
}

/// Puts the literal of the signal, if a gate drives it.
fn put_gate(
    alloc: Global,
    net: &Net,
    aig: &mut Aig,
    known: &mut IndexMap<u32, Lit>,
    s: Signal,
) -> Result<(), NoMemory>
    requires signal { s.0 < length net.now.drivers }
    requires ready { (q : ℕ) → Reads (circuit_of net.now) s.0 q → IsKnown (get nat_eq known.old) q }
    requires source { IsSource (circuit_of net.now) s.0 → IsKnown (get nat_eq known.old) s.0 }
    requires lits { AreWithin aig.old (get nat_eq known.old) }
    requires room { length aig.old + weight_at net.now s.0 < 2 ^ 30 }
    ensures learns { OnOk result ((u : ℕ) (bit : Bool) (places : List ℕ) → Learns (circuit_of net.now) u bit places aig.old aig.new (get nat_eq known.old) (get nat_eq known.new)) }
    ensures known { OnOk result (IsKnown (get nat_eq known.new) s.0) }
    ensures grown { OnOk result (HasGrown aig.old aig.new (weight_at net.now s.0) 0) }
{
    net.keeps();
    match net.driver(s) {
        Driver::Gate(j) => {
            let lit = gate_lit(alloc, net, aig, known, j)?;
            put(known, s.0, lit)?;
            Ok(())
        }
        _ => Ok(()),
    }
}

/// The cover of the gate with this number, of the literals of its fan-ins.
fn gate_lit(
    alloc: Global,
    net: &Net,
    aig: &mut Aig,
    known: &IndexMap<u32, Lit>,
    j: u32,
) -> Result<Lit, NoMemory>
    requires gate { j < length net.now.gates }
    requires known { IfSome (slice_get net.now.gates j) (λ g. All (λ f. IsKnown (get nat_eq known.now) f.0) g.fanins) }
    requires within { AreWithin aig.old (get nat_eq known.now) }
    requires room { length aig.old + gate_weight net.now.covers (slice_get net.now.gates j) < 2 ^ 30 }
    ensures here { IfOk result (λ x. IsGateLit net.now j (get nat_eq known.now) aig.old aig.new x.0) }
    ensures grown { OnOk result (HasGrown aig.old aig.new (gate_weight net.now.covers (slice_get net.now.gates j)) 0) }
{
    net.keeps();
    let gate = gate_of(net, j);
    let lits = fanin_lits(alloc, known, gate.fanins.as_slice())?;
    let lit = aig.cover(net.cover(gate.cover), lits.as_slice())?;
    Ok(lit)
}

/// The literals of the fan-ins, which are known.
fn fanin_lits(
    alloc: Global,
    known: &IndexMap<u32, Lit>,
    fanins: &[Signal],
) -> Result<Vec<Lit>, NoMemory>
    requires { All (λ f. IsKnown (get nat_eq known.now) f.0) fanins.now }
    ensures { IfOk result (λ lits. AllZip (λ f y. get nat_eq known.now f.0 ≡ Some y) fanins.now lits.items) }
{
    let mut lits = Vec::with_capacity(alloc, fanins.len())?;
    for fanin in fanins {
        lits.push(lit_of(known, *fanin))?;
    }
    Ok(lits)
}

/// The literal of a signal that is known.
fn lit_of(known: &IndexMap<u32, Lit>, s: Signal) -> Lit
    requires { IsKnown (get nat_eq known.now) s.0 }
    ensures { get nat_eq known.now s.0 ≡ Some result }
{
    match known.get(&s.0) {
        Some(lit) => *lit,
        None => unreachable!(),
    }
}

/// The literal of a bit.
fn constant(bit: bool) -> Lit
    ensures { result.0 ≡ (if bit then 1 else 0) }
{
    if bit { Lit::TRUE } else { Lit::FALSE }
}

/// Puts the signal's literal.
fn put(known: &mut IndexMap<u32, Lit>, s: u32, lit: Lit) -> Result<(), NoMemory>
    ensures { OnOk result (IsPut (get nat_eq known.old) s lit (get nat_eq known.new)) }
{
    known.insert(s, lit)?;
    Ok(())
}
