//! The weight of an unfolding.

ghost use Rattle.std.specs.Prelude.{◌≡◌, ℕ, ◌+◌, ◌*◌, ◌^◌, ◌<◌, ◌≤◌, map, List, [], length, slice_get, Some, IfOk, IfSome, IfNone, OnOk};
ghost use Rattle.signal_graph.specs.inner_cone.circuit_theory.Sizes.{IsOver};
ghost use Rattle.signal_graph.specs.inner_cone.flat_net.Signal.{Signal};
ghost use Rattle.signal_graph.specs.inner_cone.flat_net.View.{circuit_of};
ghost use Rattle.signal_graph.specs.Graph.{ArePlainNodes, step_of};
ghost use Rattle.signal_graph.specs.unfolding_weight.Weight.{Weighs, weight_of, AreMet, Stay, Meeting, IsVisited, AreVisited, AreThere, AreReadsThere};

use crate::inner_cone::{Driver, Net, NoMemory, Signal};
use crate::nodes::Node;
use base_tables::UniqueTable;
use std::alloc::Global;

/// The weight of the unfoldings of some signals, if it is within a cap.
#[derive(Clone, Copy)]
pub enum Weight {
    Within(u32),
    Over,
}

/// The weight of the unfoldings of these outputs, by the nodes of the net: the sum over the distinct pairs of a signal and a number
/// of cycles that they visit, where an input or a latch counts 1 and a gate 1 + rows * (fan-ins + 1), a cover without rows as one
/// row. `Over` comes exactly where it is above the cap.
pub fn weigh(
    alloc: Global,
    nodes: &[Node],
    net: &Net,
    outputs: &[Signal],
    cap: u32,
) -> Result<Weight, NoMemory>
    requires graph { ArePlainNodes net.now nodes.now }
    requires within { (k : ℕ) (r : Signal) → slice_get outputs.now k ≡ Some r → r.0 < length net.now.drivers }
    ensures { IfOk result (Weighs (circuit_of net.now) (map (λ s. s.0) outputs.now) cap) }
{
    let mut places = UniqueTable::new(alloc, u32::MAX);
    weigh_all(nodes, net, &mut places, outputs, cap)
}

/// The same, where no place is met yet. The places that are met stand in the order in which they are.
fn weigh_all(
    nodes: &[Node],
    net: &Net,
    places: &mut UniqueTable<(u32, u32)>,
    outputs: &[Signal],
    cap: u32,
) -> Result<Weight, NoMemory>
    requires graph { ArePlainNodes net.now nodes.now }
    requires within { (k : ℕ) (r : Signal) → slice_get outputs.now k ≡ Some r → r.0 < length net.now.drivers }
    requires empty { places.old ≡ [] }
    ensures { IfOk result (Weighs (circuit_of net.now) (map (λ s. s.0) outputs.now) cap) }
{
    net.keeps();
    let Some(first) = meet_all(net, places, outputs, 0, 0, cap)? else {
        return Ok(Weight::Over);
    };
    let mut total = first;
    let mut at = 0;
    while at < places.len() {
        let place = places.key(at);
        match meet_reads(nodes, net, places, place, total, cap)? {
            Some(sum) => total = sum,
            None => return Ok(Weight::Over),
        }
        at += 1;
    }
    Ok(Weight::Within(total))
}

/// Adds what a place reads, a latch's in the cycle before.
fn meet_reads(
    nodes: &[Node],
    net: &Net,
    places: &mut UniqueTable<(u32, u32)>,
    place: (u32, u32),
    total: u32,
    cap: u32,
) -> Result<Option<u32>, NoMemory>
    requires graph { ArePlainNodes net.now nodes.now }
    requires within { place.0 < length net.now.drivers }
    requires early { place.1 + 1 ≤ length places.old }
    requires few { length places.old ≤ total }
    requires low { total ≤ cap }
    ensures met { IfOk result (λ sum. IfSome sum (λ sum. (outputs : List ℕ) → IsVisited net.now outputs place → AreMet net.now outputs places.old total → AreMet net.now outputs places.new sum)) }
    ensures low { IfOk result (λ sum. IfSome sum (λ sum. sum ≤ cap)) }
    ensures there { IfOk result (λ sum. IfSome sum (λ sum. AreReadsThere nodes.now place places.new)) }
    ensures stay { OnOk result (Stay places.old places.new) }
    ensures over { IfOk result (λ sum. IfNone sum ((outputs : List ℕ) → IsVisited net.now outputs place → AreMet net.now outputs places.old total → IsOver (circuit_of net.now) outputs cap)) }
{
    let node = &nodes[place.0 as usize];
    let shift = back(node, place.1);
    let sum = meet_all(net, places, node.reads.as_slice(), shift, total, cap)?;
    Ok(sum)
}

fn back(node: &Node, shift: u32) -> u32
    requires { shift + 1 < 2 ^ 32 }
    ensures { result ≡ shift + step_of node.now.latch }
{
    if node.latch.is_some() {
        shift + 1
    } else {
        shift
    }
}

/// Adds these signals, so many cycles ago. Gives the new sum of the weights; None exactly where it is above the cap.
fn meet_all(
    net: &Net,
    places: &mut UniqueTable<(u32, u32)>,
    reads: &[Signal],
    shift: u32,
    total: u32,
    cap: u32,
) -> Result<Option<u32>, NoMemory>
    requires within { (k : ℕ) (r : Signal) → slice_get reads.now k ≡ Some r → r.0 < length net.now.drivers }
    requires early { shift ≤ length places.old }
    requires low { total ≤ cap }
    ensures met { IfOk result (λ sum. IfSome sum (λ sum. (outputs : List ℕ) → AreVisited net.now outputs reads.now shift → AreMet net.now outputs places.old total → AreMet net.now outputs places.new sum)) }
    ensures low { IfOk result (λ sum. IfSome sum (λ sum. sum ≤ cap)) }
    ensures there { IfOk result (λ sum. IfSome sum (λ sum. AreThere reads.now (length reads.now) shift places.new)) }
    ensures stay { OnOk result (Stay places.old places.new) }
    ensures over { IfOk result (λ sum. IfNone sum ((outputs : List ℕ) → AreVisited net.now outputs reads.now shift → AreMet net.now outputs places.old total → IsOver (circuit_of net.now) outputs cap)) }
{
    net.keeps();
    let mut sum = total;
    for signal in reads.iter() {
        match meet(net, places, (signal.0, shift), sum, cap)? {
            Some(more) => sum = more,
            None => return Ok(None),
        }
    }
    Ok(Some(sum))
}

/// Adds a signal so many cycles ago, if it isn't there yet.
fn meet(
    net: &Net,
    places: &mut UniqueTable<(u32, u32)>,
    place: (u32, u32),
    total: u32,
    cap: u32,
) -> Result<Option<u32>, NoMemory>
    requires place { place.0 < length net.now.drivers }
    requires low { total ≤ cap }
    ensures { IfOk result (Meeting net.now places.old places.new place total cap) }
{
    match places.find(place) {
        Some(_) => Ok(Some(total)),
        None => {
            places.put(place)?;
            Ok(heavier(net, Signal(place.0), total, cap))
        }
    }
}

/// The sum with the signal's weight; None exactly where it is above the cap.
fn heavier(net: &Net, s: Signal, total: u32, cap: u32) -> Option<u32>
    requires signal { s.0 < length net.now.drivers }
    requires low { total ≤ cap }
    ensures sum { IfSome result (λ sum. (sum ≡ total + weight_of net.now s.0) × (sum ≤ cap)) }
    ensures over { IfNone result (cap < total + weight_of net.now s.0) }
{
    net.keeps();
    match net.driver(s) {
        Driver::Gate(j) => {
            let gate = &net.gates()[j as usize];
            let rows = net.cover(gate.cover).rows().len().max(1);
            let fanins = gate.fanins.as_slice().len();
            added_to(total, rows, fanins + 1, cap)
        }
        _ => { if total < cap { Some(total + 1) } else { None } }
    }
}

/// total + 1 + rows * columns; None exactly where it is above the cap.
fn added_to(total: u32, rows: usize, columns: usize, cap: u32) -> Option<u32>
    requires { total ≤ cap }
    ensures sum { IfSome result (λ sum. (sum ≡ total + (1 + rows * columns)) × (sum ≤ cap)) }
    ensures over { IfNone result (cap < total + (1 + rows * columns)) }
{
    match rows.checked_mul(columns) {
        Some(product) => {
            if product < (cap - total) as usize {
                Some(total + 1 + product as u32)
            } else {
                None
            }
        }
        None => None,
    }
}
