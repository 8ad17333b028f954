//! Rounds of latches that wait for each other.

ghost use Rattle.std.specs.Prelude.{◌≡◌, ℕ, ◌+◌, ◌-◌, ◌^◌, ◌<◌, ◌≤◌, ◌⊎◌, Bool, true, false, List, length, drop, slice_get, slice_set, Some, None, All, IfOk, IfSome, IfNone, if◌then◌else◌};
ghost use Rattle.circuit_theory.specs.Names.{ListBefore};
ghost use Rattle.circuit_theory.specs.Circuit.{Reaches};
ghost use Rattle.circuit_theory.specs.Depth.{HasCycle, IsCycle, BeginsWithLeast};
ghost use Rattle.signal_graph.specs.flat_net.Signal.{Signal};
ghost use Rattle.signal_graph.specs.flat_net.LatchAt.{LatchAt};
ghost use Rattle.signal_graph.specs.flat_net.View.{NetView, circuit_of};
ghost use Rattle.signal_graph.specs.declared.nodes.Node.{Node};
ghost use Rattle.latch_graph.specs.declared.states.State.{State};
ghost use Rattle.signal_graph.specs.Graph.{AreNodes, IsGraphOf, marked_names, signals_at};
ghost use Rattle.signal_graph.specs.inner_cone.latch_cone.Cones.{IsMarkedBy};
ghost use Rattle.latch_graph.specs.Settling.{IsSettled};
ghost use Rattle.latch_graph.specs.Rounds.{latch_in, IsEndless, TakesOver, IsRound, IsLeast, IsTurned, IsTurnedRound, AreRemoved};

use crate::states::{State, all_new, settled_from};
use signal_graph::unfolding_weight::Node;
use signal_graph::{Ids, LatchAt, NoMemory, Seq};
use std::alloc::Global;

/// A cycle without the removed latches, if one is left: each latch is read by the next, the last by the first, and the
/// first has the least name.
pub(crate) fn find_cycle(
    alloc: Global,
    nodes: &[Node],
    latches: &[LatchAt],
    removed: &[bool],
) -> Result<Option<Ids>, NoMemory>
    requires nodes { AreNodes nodes.now latches.now }
    requires bits { length removed.now ≡ length latches.now }
    ensures none { IfOk result (λ found. IfNone found ((n : NetView) (bits : List Bool) → IsGraphOf n (record { nodes = nodes.now; latches = latches.now; skipped = bits }) → HasCycle (circuit_of n) (IsMarkedBy latches.now bits) (marked_names latches.now removed.now) → ⊥)) }
    ensures within { IfOk result (λ found. IfSome found (All (λ j. j < length latches.now))) }
    ensures cycle { IfOk result (λ found. IfSome found (λ ids. (n : NetView) (bits : List Bool) → IsGraphOf n (record { nodes = nodes.now; latches = latches.now; skipped = bits }) → IsCycle (circuit_of n) (IsMarkedBy latches.now bits) (marked_names latches.now removed.now) (signals_at latches.now ids))) }
    ensures least { IfOk result (λ found. IfSome found (λ ids. (n : NetView) (bits : List Bool) → IsGraphOf n (record { nodes = nodes.now; latches = latches.now; skipped = bits }) → BeginsWithLeast (circuit_of n) (signals_at latches.now ids))) }
{
    let first = first_states(alloc, nodes, latches, removed)?;
    let states = settled_from(alloc, nodes, first)?;
    match first_endless(states.as_slice()) {
        Some(signal) => {
            let round = round_behind(alloc, nodes, latches, states.as_slice(), signal)?;
            Ok(Some(round))
        }
        None => Ok(None),
    }
}

/// The first states: the latches with a set bit are removed.
fn first_states(
    alloc: Global,
    nodes: &[Node],
    latches: &[LatchAt],
    removed: &[bool],
) -> Result<Vec<State>, NoMemory>
    requires nodes { AreNodes nodes.now latches.now }
    requires bits { length removed.now ≡ length latches.now }
    ensures size { IfOk result (λ states. length states.items ≡ length nodes.now) }
    ensures removed { IfOk result (λ states. AreRemoved latches.now removed.now (length latches.now) states.items) }
{
    let mut states = all_new(alloc, nodes.len())?;
    remove_marked(nodes, latches, removed, states.as_mut_slice());
    Ok(states)
}

fn remove_marked(nodes: &[Node], latches: &[LatchAt], removed: &[bool], states: &mut [State])
    requires nodes { AreNodes nodes.now latches.now }
    requires bits { length removed.now ≡ length latches.now }
    requires size { length states.old ≡ length nodes.now }
    requires new { (s : ℕ) (st : State) → slice_get states.old s ≡ Some st → st ≡ State.New }
    ensures { AreRemoved latches.now removed.now (length latches.now) states.new }
{
    for j in 0..latches.len() {
        remove_if(removed[j], states, latches[j].out.0);
    }
}

fn remove_if(bit: bool, states: &mut [State], signal: u32)
    requires { signal < length states.old }
    ensures { states.new ≡ (if bit then slice_set states.old signal State.Removed else states.old) }
{
    if bit {
        states[signal as usize] = State::Removed;
    }
}

/// A signal that leads back to a cycle, if there is one.
fn first_endless(states: &[State]) -> Option<u32>
    requires { length states.now < 2 ^ 32 }
    ensures some { IfSome result (λ s. slice_get states.now s ≡ Some State.Endless) }
    ensures none { IfNone result ((s : ℕ) → slice_get states.now s ≡ Some State.Endless → ⊥) }
{
    for s in 0..states.len() {
        if states[s].is_endless() {
            return Some(s as u32);
        }
    }
    None
}

/// A round of latches behind a signal that leads back to a cycle: each is read by the next, the last by the first, and
/// the first has the least name.
fn round_behind(
    alloc: Global,
    nodes: &[Node],
    latches: &[LatchAt],
    states: &[State],
    signal: u32,
) -> Result<Ids, NoMemory>
    requires nodes { AreNodes nodes.now latches.now }
    requires settled { IsSettled nodes.now states.now }
    requires endless { slice_get states.now signal ≡ Some State.Endless }
    ensures { IfOk result (IsTurnedRound nodes.now latches.now states.now) }
{
    let start = latch_behind(nodes, latches, states, signal);
    let round = round_from(alloc, nodes, latches, states, start)?;
    turned(alloc, latches, round.as_slice())
}

/// The first latch on the way back from a signal that leads back to a cycle, along signals that do.
fn latch_behind(nodes: &[Node], latches: &[LatchAt], states: &[State], signal: u32) -> u32
    requires nodes { AreNodes nodes.now latches.now }
    requires settled { IsSettled nodes.now states.now }
    requires endless { slice_get states.now signal ≡ Some State.Endless }
    ensures endless { IsEndless latches.now states.now result }
    ensures reached { (n : NetView) (bits : List Bool) → IsGraphOf n (record { nodes = nodes.now; latches = latches.now; skipped = bits }) → Reaches (circuit_of n) signal (latch_in latches.now result).out.0 }
{
    let mut at = signal;
    'back: loop {
        let node = &nodes[at as usize];
        match node.latch {
            Some(latch) => return latch,
            None => at = endless_read(node, states),
        }
    }
}

/// The first signal that the node reads and that leads back to a cycle.
fn endless_read(node: &Node, states: &[State]) -> u32
    requires within { (k : ℕ) (r : Signal) → slice_get node.now.reads k ≡ Some r → r.0 < length states.now }
    requires some { (k : ℕ) × (r : Signal) × (slice_get node.now.reads k ≡ Some r) × (slice_get states.now r.0 ≡ Some State.Endless) }
    ensures read { (k : ℕ) × (r : Signal) × (slice_get node.now.reads k ≡ Some r) × (r.0 ≡ result) }
    ensures endless { slice_get states.now result ≡ Some State.Endless }
{
    let reads = node.reads.as_slice();
    for k in 0..reads.len() {
        let read = reads[k].0;
        if states[read as usize].is_endless() {
            return read;
        }
    }
    0
}

/// The round to which the way back from the latch leads, each latch before those that it waits for.
fn round_from(
    alloc: Global,
    nodes: &[Node],
    latches: &[LatchAt],
    states: &[State],
    start: u32,
) -> Result<Vec<u32>, NoMemory>
    requires nodes { AreNodes nodes.now latches.now }
    requires settled { IsSettled nodes.now states.now }
    requires start { IsEndless latches.now states.now start }
    ensures { IfOk result (λ round. IsRound nodes.now latches.now states.now round.items) }
{
    let mut trail = Vec::new(alloc);
    let mut passed = none_passed(alloc, latches.len())?;
    let mut at = start;
    'walk: while !passed[at as usize] {
        passed[at as usize] = true;
        trail.push(at)?;
        at = next_latch(nodes, latches, states, at);
    }
    let from = place_of(trail.as_slice(), at);
    tail_from(alloc, trail.as_slice(), from)
}

fn tail_from(alloc: Global, numbers: &[u32], from: usize) -> Result<Vec<u32>, NoMemory>
    requires { from ≤ length numbers.now }
    ensures { IfOk result (λ made. made.items ≡ drop from numbers.now) }
{
    Ok(Vec::from_slice(alloc, &numbers[from..])?)
}

fn none_passed(alloc: Global, count: usize) -> Result<Vec<bool>, NoMemory>
    ensures size { IfOk result (λ passed. length passed.items ≡ count) }
    ensures none { IfOk result (λ passed. (j : ℕ) (bit : Bool) → slice_get passed.items j ≡ Some bit → bit ≡ false) }
{
    Ok(vec![in alloc; false; count]?)
}

fn signal_of(latches: &[LatchAt], latch: u32) -> u32
    requires { latch < length latches.now }
    ensures { result ≡ (latch_in latches.now latch).out.0 }
{
    latches[latch as usize].out.0
}

/// The latch that the latch waits for.
fn next_latch(nodes: &[Node], latches: &[LatchAt], states: &[State], latch: u32) -> u32
    requires nodes { AreNodes nodes.now latches.now }
    requires settled { IsSettled nodes.now states.now }
    requires latch { IsEndless latches.now states.now latch }
    ensures endless { IsEndless latches.now states.now result }
    ensures takes { TakesOver nodes.now latches.now latch result }
{
    let own = signal_of(latches, latch);
    let node = &nodes[own as usize];
    let read = endless_read(node, states);
    latch_behind(nodes, latches, states, read)
}

/// The place of the number.
fn place_of(numbers: &[u32], number: u32) -> usize
    requires { (i : ℕ) × (slice_get numbers.now i ≡ Some number) }
    ensures { slice_get numbers.now result ≡ Some number }
{
    for at in 0..numbers.len() {
        if numbers[at] == number {
            return at;
        }
    }
    numbers.len()
}

/// The round the other way, from the latch with the least name on.
fn turned(alloc: Global, latches: &[LatchAt], round: &[u32]) -> Result<Ids, NoMemory>
    requires some { 0 < length round.now }
    requires within { (i j : ℕ) → slice_get round.now i ≡ Some j → j < length latches.now }
    ensures { IfOk result (IsTurned latches.now round.now) }
{
    let first = least(latches, round);
    let mut made = Seq::new(alloc);
    for i in 0..round.len() {
        made.push(round[place_back(round.len(), first, i)])?;
    }
    Ok(made)
}

/// The place that stands i places before the first in a round of so many.
fn place_back(count: usize, first: usize, i: usize) -> usize
    requires first { first < count }
    requires i { i < count }
    requires few { count < 2 ^ 62 }
    ensures within { result < count }
    ensures place { ((i ≤ first) × (result ≡ first - i)) ⊎ ((first < i) × (result ≡ count + first - i)) }
{
    if i <= first {
        first - i
    } else {
        count + first - i
    }
}

/// The place of a latch whose name isn't behind another one's of the round.
fn least(latches: &[LatchAt], round: &[u32]) -> usize
    requires some { 0 < length round.now }
    requires within { (i j : ℕ) → slice_get round.now i ≡ Some j → j < length latches.now }
    ensures within { result < length round.now }
    ensures least { IsLeast latches.now round.now result }
{
    let mut best = 0;
    for i in 0..round.len() {
        if is_named_before(latches, round[i], round[best]) {
            best = i;
        }
    }
    best
}

fn is_named_before(latches: &[LatchAt], j: u32, k: u32) -> bool
    requires j { j < length latches.now }
    requires k { k < length latches.now }
    ensures yes { result ≡ true → ListBefore (latch_in latches.now j).name (latch_in latches.now k).name }
    ensures no { result ≡ false → ListBefore (latch_in latches.now j).name (latch_in latches.now k).name → ⊥ }
{
    let left = &latches[j as usize].name;
    let right = &latches[k as usize].name;
    is_before(left.as_slice(), right.as_slice())
}

/// Whether the first text comes before the second in byte order.
fn is_before(left: &[u8], right: &[u8]) -> bool
    ensures yes { result ≡ true → ListBefore left.now right.now }
    ensures no { result ≡ false → ListBefore left.now right.now → ⊥ }
{
    left.cmp(&right).is_lt()
}
