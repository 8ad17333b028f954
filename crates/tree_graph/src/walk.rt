//! A tree made in a graph.

ghost use Rattle.std.specs.Prelude.{◌≡◌, ℕ, ◌+◌, ◌*◌, ◌^◌, ◌<◌, ◌≤◌, length, slice_get, All, IfOk, OnOk, Contains};
ghost use Rattle.std.specs.List.{AllZip};
ghost use Rattle.circuit_theory.specs.Tree.{Tree, Leaf};
ghost use Rattle.aig.specs.Builds.{Builds};
ghost use Rattle.flat_net.specs.declared.signals.Signal.{Signal};
ghost use Rattle.aig.specs.declared.node.Lit.{Lit};
ghost use Rattle.tree_graph.specs.declared.covers.TheConstants.{MOST_NODES};
ghost use Rattle.tree_graph.specs.Making.{Makes};
ghost use Rattle.tree_graph.specs.Rooted.{IsTreeAt, IsTreeOf, HasTree};
ghost use Rattle.tree_graph.specs.Walking.{IsMet, AreKnown, IsVisited, MakesGate, reads_of, fanins_at};

use crate::covers::{MOST_NODES, make_cover};
use crate::graphs::Rooted;
use crate::reads::{are_met, push, push_reads};
use aig::graph_copy::memo::{Memo, Place};
use aig::{Aig, Lit, NoMemory};
use flat_net::{Driver, Signal, UniqueTable, gate_of, latch_of};
use std::alloc::Global;

/// Makes the tree of a signal: what it reads first, the last fan-in before the others, each place once.
pub(crate) fn make_tree(
    alloc: Global,
    side: &Rooted<'_>,
    places: &UniqueTable<Place>,
    aig: &mut Aig,
) -> Result<Lit, NoMemory>
    requires tree { HasTree side.now }
    requires few { length aig.old ≤ MOST_NODES }
    ensures made { IfOk result (λ x. (t : Tree ℕ) → IsTreeOf side.now t → Makes places.now aig.old t aig.new x.0) }
    ensures within { IfOk result (λ x. x.0 < 2 * length aig.new) }
    ensures few { length aig.new ≤ MOST_NODES }
{
    side.net.keeps();
    let mut memo = Memo::new(alloc);
    let mut stack = Vec::new(alloc);
    push(&mut stack, (0, side.root.0))?;
    for _ in 0..u64::MAX {
        let Some(place) = stack.pop() else {
            return found(side, places, aig, &memo);
        };
        visit(alloc, side, places, aig, &mut memo, &mut stack, place)?;
    }
    Err(NoMemory)
}

/// The literal of the root.
fn found(
    side: &Rooted<'_>,
    places: &UniqueTable<Place>,
    aig: &Aig,
    memo: &Memo,
) -> Result<Lit, NoMemory>
    requires known { AreKnown side.now.net.now side.now.order.now places.now memo.now aig.now }
    ensures made { IfOk result (λ x. (t : Tree ℕ) (y : ℕ) → IsTreeOf side.now t → Builds aig.now places.now t y → y ≡ x.0) }
    ensures within { IfOk result (λ x. x.0 < 2 * length aig.now) }
{
    aig.keeps();
    places.keeps();
    side.net.keeps();
    match memo.get((0, side.root.0)) {
        Some(lit) => Ok(lit),
        None => Err(NoMemory),
    }
}

/// Makes the place, if what it reads has been met; else puts it back, and what it reads above it.
fn visit(
    alloc: Global,
    side: &Rooted<'_>,
    places: &UniqueTable<Place>,
    aig: &mut Aig,
    memo: &mut Memo,
    stack: &mut Vec<Place>,
    place: Place,
) -> Result<(), NoMemory>
    requires each { length side.now.order.now ≡ length side.now.net.now.inputs }
    requires tree { (t : Tree ℕ) × IsTreeAt side.now.net.now side.now.order.now place t }
    requires known { AreKnown side.now.net.now side.now.order.now places.now memo.old aig.old }
    requires few { length aig.old ≤ MOST_NODES }
    ensures known { OnOk result (AreKnown side.now.net.now side.now.order.now places.now memo.new aig.new) }
    ensures visited { OnOk result ((t : Tree ℕ) → IsTreeAt side.now.net.now side.now.order.now place t → IsVisited side.now.net.now side.now.order.now places.now place t aig.old aig.new stack.old.items stack.new.items) }
    ensures few { length aig.new ≤ MOST_NODES }
{
    if place.0 == u32::MAX {
        return Err(NoMemory);
    }
    memo.keeps();
    side.net.keeps();
    aig.keeps();
    places.keeps();
    if let Some(_) = memo.get(place) {
        return Ok(());
    }
    if !are_met(side.net, memo, place) {
        push(stack, place)?;
        return push_reads(side.net, stack, place);
    }
    let lit = make_place(alloc, side, places, aig, memo, place)?;
    memo.put(place, lit)?;
    Ok(())
}

/// Makes the tree of a place whose reads have been met.
fn make_place(
    alloc: Global,
    side: &Rooted<'_>,
    places: &UniqueTable<Place>,
    aig: &mut Aig,
    memo: &Memo,
    place: Place,
) -> Result<Lit, NoMemory>
    requires each { length side.now.order.now ≡ length side.now.net.now.inputs }
    requires signal { place.1 < length side.now.net.now.drivers }
    requires early { place.0 + 1 < 2 ^ 32 }
    requires met { All (IsMet memo.now) (reads_of side.now.net.now place) }
    requires known { AreKnown side.now.net.now side.now.order.now places.now memo.now aig.old }
    requires few { length aig.old ≤ MOST_NODES }
    ensures made { IfOk result (λ x. (t : Tree ℕ) → IsTreeAt side.now.net.now side.now.order.now place t → Makes places.now aig.old t aig.new x.0) }
    ensures within { IfOk result (λ x. x.0 < 2 * length aig.new) }
    ensures few { length aig.new ≤ MOST_NODES }
{
    side.net.keeps();
    match side.net.driver(Signal(place.1)) {
        Driver::Input(i) => make_input(places, aig, side.order.as_slice()[i as usize], place.0),
        Driver::Gate(j) => make_gate(alloc, side, aig, memo, place.0, j),
        Driver::Latch(j) => Ok(memo.met((place.0 + 1, latch_of(side.net, j).next.0))),
    }
}

/// Makes the variable of an input at a shift, which is in the table.
fn make_input(
    places: &UniqueTable<Place>,
    aig: &mut Aig,
    number: u32,
    shift: u32,
) -> Result<Lit, NoMemory>
    requires { length aig.old ≤ MOST_NODES }
    ensures made { IfOk result (λ x. Makes places.now aig.old (Leaf number shift) aig.new x.0) }
    ensures within { IfOk result (λ x. x.0 < 2 * length aig.new) }
    ensures few { length aig.new ≤ MOST_NODES }
{
    places.keeps();
    if aig.size() >= MOST_NODES {
        return Err(NoMemory);
    }
    match places.find((number, shift)) {
        Some(variable) if variable < u32::MAX => aig.input(variable),
        _ => Err(NoMemory),
    }
}

/// Makes the gate's cover of its fan-ins at a shift, which have been met.
fn make_gate(
    alloc: Global,
    side: &Rooted<'_>,
    aig: &mut Aig,
    memo: &Memo,
    shift: u32,
    j: u32,
) -> Result<Lit, NoMemory>
    requires gate { j < length side.now.net.now.gates }
    requires met { All (IsMet memo.now) (fanins_at shift (slice_get side.now.net.now.gates j)) }
    requires within { (p : ℕ × ℕ) (x : Lit) → Contains memo.now (p, x) → x.0 < 2 * length aig.old }
    requires few { length aig.old ≤ MOST_NODES }
    ensures made { IfOk result (λ x. MakesGate side.now.net.now memo.now shift j aig.old aig.new x.0) }
    ensures within { IfOk result (λ x. x.0 < 2 * length aig.new) }
    ensures few { length aig.new ≤ MOST_NODES }
{
    side.net.keeps();
    let gate = gate_of(side.net, j);
    let lits = literals(alloc, memo, shift, gate.fanins.as_slice())?;
    make_cover(aig, side.net.cover(gate.cover), lits.as_slice())
}

/// The literals of these signals at a shift, which have been met.
fn literals(
    alloc: Global,
    memo: &Memo,
    shift: u32,
    signals: &[Signal],
) -> Result<Vec<Lit>, NoMemory>
    requires { All (λ f. IsMet memo.now (shift, f.0)) signals.now }
    ensures { IfOk result (λ lits. AllZip (λ f y. Contains memo.now ((shift, f.0), y)) signals.now lits.items) }
{
    let mut lits = Vec::with_capacity(alloc, signals.len())?;
    for signal in signals {
        lits.push(memo.met((shift, signal.0)))?;
    }
    Ok(lits)
}
