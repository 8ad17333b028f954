//! The latches that a signal reaches, each at its event nodes.

ghost use Rattle.std.specs.Prelude.{◌≡◌, ℕ, List, ◌+◌, ◌^◌, ◌<◌, ◌≤◌, length, slice_get, Some, None, All, Contains, IfOk, IfSome, IfNone, OnOk};
ghost use Rattle.circuit_theory.specs.Circuit.{IsLatch};
ghost use Rattle.circuit_theory.specs.Depth.{LatchesHaveDepths};
ghost use Rattle.circuit_theory.specs.EventSizes.{Start};
ghost use Rattle.event_nodes.specs.flat_net.View.{circuit_of};
ghost use Rattle.event_nodes.specs.flat_net.Signal.{Signal};
ghost use Rattle.event_nodes.specs.flat_net.LatchAt.{LatchAt};
ghost use Rattle.event_nodes.specs.Adds.{Adds};
ghost use Rattle.event_nodes.specs.Nodes.{GrowsEvents};
ghost use Rattle.event_nodes.specs.View.{Enabled, IsEnabledAt};
ghost use Rattle.event_nodes.specs.Reach.{IsReachedPlace, IsPassedOn, AreReachedPlaces};
ghost use Rattle.event_classes.specs.event_functions.event_reach.Made.{HasChild};
ghost use Rattle.event_nodes.specs.Visited.{AreNodesFrom, HoldsNodes};

use base_tables::UniqueTable;
use event_nodes::{
    Driver, EventCircuit, EventGraph, EventUnfoldError, Net, Place, PlaceTable, Signal, add,
};
use sec_base::MAX_EVENT_NODES;
use signal_graph::inner_cone::latch_cone::{other_latches, reached};
use std::alloc::Global;

/// Puts the latch at the node into the table. `TooLarge` comes where that then holds more than the cap.
fn put(table: &mut PlaceTable, node: u32, latch: u32, cap: u32) -> Result<(), EventUnfoldError>
    requires cap { cap ≤ 4000000000 }
    requires few { length table.old ≤ cap }
    ensures adds { Adds (λ q. q ≡ (node, latch)) table.old table.new }
    ensures here { OnOk result (Contains table.new (node, latch)) }
    ensures few { OnOk result (length table.new ≤ cap) }
{
    add(table, node, Signal(latch))?;
    if table.len() > cap {
        return Err(EventUnfoldError::TooLarge);
    }
    Ok(())
}

/// Puts the latches at the node into the table.
fn put_all(
    table: &mut PlaceTable,
    node: u32,
    latches: &[Signal],
    cap: u32,
) -> Result<(), EventUnfoldError>
    requires cap { cap ≤ 4000000000 }
    requires few { length table.old ≤ cap }
    ensures adds { Adds (λ q. (f : Signal) × Contains latches.now f × ((node, f.0) ≡ q)) table.old table.new }
    ensures all { OnOk result (All (λ f. Contains table.new (node, f.0)) latches.now) }
    ensures few { OnOk result (length table.new ≤ cap) }
{
    for latch in latches {
        put(table, node, latch.0, cap)?;
    }
    Ok(())
}

/// Puts those of the signals that are latches into the table, at the root.
fn put_latches(
    net: &Net,
    table: &mut PlaceTable,
    signals: &UniqueTable<u32>,
    cap: u32,
) -> Result<(), EventUnfoldError>
    requires cap { cap ≤ 4000000000 }
    requires few { length table.old ≤ cap }
    requires within { (i s : ℕ) → slice_get signals.now i ≡ Some s → s < length net.now.drivers }
    ensures adds { Adds (λ q. (q.0 ≡ 0) × Contains signals.now q.1 × ((name : List ℕ) × (next : ℕ) × IsLatch (circuit_of net.now) name q.1 next)) table.old table.new }
    ensures all { OnOk result ((v : ℕ) (name : List ℕ) (next : ℕ) → Contains signals.now v → IsLatch (circuit_of net.now) name v next → Contains table.new (0, v)) }
    ensures few { OnOk result (length table.new ≤ cap) }
{
    net.keeps();
    for at in 0..signals.len() {
        let signal = signals.key(at);
        if let Driver::Latch(_) = net.driver(Signal(signal)) {
            put(table, 0, signal, cap)?;
        }
    }
    Ok(())
}

/// Puts the other latches of a latch's cone into the table, at the child by its class.
fn pass_on(
    alloc: Global,
    circuit: &EventCircuit,
    events: &mut EventGraph,
    table: &mut PlaceTable,
    place: Place,
    cap: u32,
) -> Result<(), EventUnfoldError>
    requires cap { cap ≤ 4000000000 }
    requires few { length table.old ≤ cap }
    requires latch { (name : List ℕ) × (next : ℕ) × IsLatch (circuit_of circuit.now.net) name place.1 next }
    requires node { place.0 ≤ length events.old.children }
    requires room { length events.old.children + 2 < 2 ^ 32 }
    ensures passed { OnOk result (LatchesHaveDepths (circuit_of circuit.now.net) (Enabled circuit.now) → IsPassedOn circuit.now events.new.children table.new place) }
    ensures child { OnOk result (HasChild circuit.now events.new.children place) }
    ensures made { (x : Start ℕ) → IsReachedPlace circuit.now events.old.children x place → AreNodesFrom circuit.now events.new.children x (length events.old.children) }
    ensures sound { OnOk result ((x : Start ℕ) → IsReachedPlace circuit.now events.new.children x place → Adds (IsReachedPlace circuit.now events.new.children x) table.old table.new) }
    ensures kept { Adds (λ q. q ≡ q) table.old table.new }
    ensures few { OnOk result (length table.new ≤ cap) }
    ensures grows { GrowsEvents events.old events.new }
    ensures same { events.new ≡ record events.old { children = events.new.children } }
    ensures small { length events.new.children ≤ length events.old.children + 1 }
{
    circuit.keeps();
    events.keeps();
    let net = circuit.net();
    let Driver::Latch(j) = net.driver(Signal(place.1)) else {
        return Ok(());
    };
    let others = other_latches(alloc, net, j)?;
    let child = events.child(place.0, circuit.class(j))?;
    events.keeps();
    put_all(table, child, others.as_slice(), cap)
}

/// Puts all that the latches in the table pass on into it, and what that passes on. `TooManyEvents` comes where more than 10,000 event
/// nodes were made.
fn pass_on_all(
    alloc: Global,
    circuit: &EventCircuit,
    events: &mut EventGraph,
    table: &mut PlaceTable,
    cap: u32,
) -> Result<(), EventUnfoldError>
    requires cap { cap ≤ 4000000000 }
    requires few { length table.old ≤ cap }
    requires reached { (x : Start ℕ) × All (IsReachedPlace circuit.now events.old.children x) table.old }
    requires room { length events.old.children + cap + 2 < 2 ^ 32 }
    ensures passed { OnOk result (LatchesHaveDepths (circuit_of circuit.now.net) (Enabled circuit.now) → All (IsPassedOn circuit.now events.new.children table.new) table.new) }
    ensures children { OnOk result (All (HasChild circuit.now events.new.children) table.new) }
    ensures made { (x : Start ℕ) → All (IsReachedPlace circuit.now events.old.children x) table.old → AreNodesFrom circuit.now events.new.children x (length events.old.children) }
    ensures reached { OnOk result ((x : Start ℕ) → All (IsReachedPlace circuit.now events.old.children x) table.old → All (IsReachedPlace circuit.now events.new.children x) table.new) }
    ensures kept { Adds (λ q. q ≡ q) table.old table.new }
    ensures grows { GrowsEvents events.old events.new }
    ensures same { events.new ≡ record events.old { children = events.new.children } }
    ensures small { length events.new.children ≤ length events.old.children + cap }
{
    let mut at = 0;
    while at < table.len() {
        let nodes = events.nodes();
        if nodes >= MAX_EVENT_NODES {
            return Err(EventUnfoldError::TooManyEvents);
        }
        events.keeps();
        let place = table.pair(at);
        pass_on(alloc, circuit, events, table, place, cap)?;
        at += 1;
    }
    Ok(())
}

/// The latches that the signal reaches, each at its event nodes: pairs of an event node and a latch's signal. All event nodes that it
/// reaches are made. `TooLarge` comes where the pairs are more than the cap, and `TooManyEvents` where more than 10,000 event nodes were made
/// while latches are left.
pub fn reached_latches(
    alloc: Global,
    circuit: &EventCircuit,
    events: &mut EventGraph,
    s: Signal,
    cap: u32,
) -> Result<PlaceTable, EventUnfoldError>
    requires signal { s.0 < length circuit.now.net.drivers }
    requires cap { cap ≤ 4000000000 }
    requires room { length events.old.children + cap + 2 < 2 ^ 32 }
    ensures reached { IfOk result (λ table. LatchesHaveDepths (circuit_of circuit.now.net) (Enabled circuit.now) → AreReachedPlaces circuit.now events.new.children (record { place = s.0; left_out = None }) table) }
    ensures nodes { OnOk result (LatchesHaveDepths (circuit_of circuit.now.net) (Enabled circuit.now) → HoldsNodes circuit.now events.new.children (record { place = s.0; left_out = None })) }
    ensures made { AreNodesFrom circuit.now events.new.children (record { place = s.0; left_out = None }) (length events.old.children) }
    ensures grows { GrowsEvents events.old events.new }
    ensures same { events.new ≡ record events.old { children = events.new.children } }
    ensures small { length events.new.children ≤ length events.old.children + cap }
{
    circuit.keeps();
    let net = circuit.net();
    let seen = reached(alloc, net, s)?;
    let mut table = PlaceTable::new(alloc);
    put_latches(net, &mut table, &seen, cap)?;
    pass_on_all(alloc, circuit, events, &mut table, cap)?;
    events.keeps();
    Ok(table)
}

/// The same for what the latch with this position takes over, the latch itself left out.
pub fn reached_others(
    alloc: Global,
    circuit: &EventCircuit,
    events: &mut EventGraph,
    j: u32,
    cap: u32,
) -> Result<PlaceTable, EventUnfoldError>
    requires latch { j < length circuit.now.net.latches }
    requires cap { cap ≤ 4000000000 }
    requires room { length events.old.children + cap + 2 < 2 ^ 32 }
    ensures reached { IfOk result (λ table. (l : LatchAt) → slice_get circuit.now.net.latches j ≡ Some l → LatchesHaveDepths (circuit_of circuit.now.net) (Enabled circuit.now) → AreReachedPlaces circuit.now events.new.children (record { place = l.next.0; left_out = Some l.out.0 }) table) }
    ensures nodes { OnOk result ((l : LatchAt) → slice_get circuit.now.net.latches j ≡ Some l → LatchesHaveDepths (circuit_of circuit.now.net) (Enabled circuit.now) → HoldsNodes circuit.now events.new.children (record { place = l.next.0; left_out = Some l.out.0 })) }
    ensures made { (l : LatchAt) → slice_get circuit.now.net.latches j ≡ Some l → AreNodesFrom circuit.now events.new.children (record { place = l.next.0; left_out = Some l.out.0 }) (length events.old.children) }
    ensures grows { GrowsEvents events.old events.new }
    ensures same { events.new ≡ record events.old { children = events.new.children } }
    ensures small { length events.new.children ≤ length events.old.children + cap }
{
    circuit.keeps();
    let net = circuit.net();
    let others = other_latches(alloc, net, j)?;
    let mut table = PlaceTable::new(alloc);
    put_all(&mut table, 0, others.as_slice(), cap)?;
    pass_on_all(alloc, circuit, events, &mut table, cap)?;
    events.keeps();
    Ok(table)
}

/// The position of the latch that drives the signal, if it is an enabled one.
pub fn enabled_at(circuit: &EventCircuit, latch: u32) -> Option<u32>
    requires { (name : List ℕ) × (next : ℕ) × IsLatch (circuit_of circuit.now.net) name latch next }
    ensures here { IfSome result (IsEnabledAt circuit.now latch) }
    ensures none { IfNone result (Enabled circuit.now latch → ⊥) }
{
    circuit.keeps();
    let net = circuit.net();
    let Driver::Latch(j) = net.driver(Signal(latch)) else {
        return None;
    };
    let enabled = circuit.is_enabled(j);
    if enabled { Some(j) } else { None }
}
