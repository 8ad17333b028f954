//! The depths of all signals, by walks back through what they read.

ghost use Rattle.std.specs.Prelude.{◌≡◌, ℕ, ◌+◌, ◌*◌, ◌^◌, ◌<◌, ◌≤◌, [], ◌∷◌, ◌++◌, true, false, length, slice_get, slice_set, Some, OnOk, IfOk, IfSome, IfNone, is_some};
ghost use Rattle.signal_graph.specs.flat_net.Signal.{Signal};
ghost use Rattle.signal_graph.specs.declared.nodes.Node.{Node};
ghost use Rattle.latch_graph.specs.declared.states.State.{State};
ghost use Rattle.latch_graph.specs.Settling.{HasDepth, IsGreatest, IsDepthOf, IsFirst, IsSettled, SameRemoved, IsLater, IsGivenUp, Leads, new_count, IsWay, depth_of};

use signal_graph::unfolding_weight::Node;
use signal_graph::{NoMemory, Signal};
use std::alloc::Global;

/// What is known of a signal's depth.
#[derive(Clone, Copy)]
pub enum State {
    /// Not looked at yet.
    New,
    /// On the way that is walked.
    Open,
    Known(u32),
    /// The signal leads back to a cycle.
    Endless,
    /// A latch that counts as an input.
    Removed,
}

/// A place on the way: a signal, with how many of the signals that it reads have their depths.
#[derive(Clone, Copy)]
pub struct Step {
    pub signal: u32,
    pub read: usize,
}

/// States of so many new signals.
pub(crate) fn all_new(alloc: Global, count: usize) -> Result<Vec<State>, NoMemory>
    ensures size { IfOk result (λ states. length states.items ≡ count) }
    ensures new { IfOk result (λ states. (s : ℕ) (st : State) → slice_get states.items s ≡ Some st → st ≡ State.New) }
{
    Ok(vec![in alloc; State::New; count]?)
}

/// The states with the depth of each new signal, or that it leads back to a cycle.
pub(crate) fn settled_from(
    alloc: Global,
    nodes: &[Node],
    mut states: Vec<State>,
) -> Result<Vec<State>, NoMemory>
    requires few { length nodes.now < 2 ^ 32 }
    requires within { (s k : ℕ) (node : Node) (r : Signal) → slice_get nodes.now s ≡ Some node → slice_get node.reads k ≡ Some r → r.0 < length nodes.now }
    requires size { length states.items ≡ length nodes.now }
    requires first { (s : ℕ) (st : State) → slice_get states.items s ≡ Some st → IsFirst st }
    ensures settled { IfOk result (λ made. IsSettled nodes.now made.items) }
    ensures removed { IfOk result (λ made. SameRemoved states.items made.items) }
{
    settle(alloc, nodes, states.as_mut_slice())?;
    Ok(states)
}

/// Finds the depth of each new signal, or that it leads back to a cycle.
fn settle(alloc: Global, nodes: &[Node], states: &mut [State]) -> Result<(), NoMemory>
    requires few { length nodes.now < 2 ^ 32 }
    requires within { (s k : ℕ) (node : Node) (r : Signal) → slice_get nodes.now s ≡ Some node → slice_get node.reads k ≡ Some r → r.0 < length nodes.now }
    requires size { length states.old ≡ length nodes.now }
    requires first { (s : ℕ) (st : State) → slice_get states.old s ≡ Some st → IsFirst st }
    ensures settled { OnOk result (IsSettled nodes.now states.new) }
    ensures removed { OnOk result (SameRemoved states.old states.new) }
{
    let mut way = Vec::new(alloc);
    for signal in 0..nodes.len() {
        settle_from(nodes, states, &mut way, signal as u32)?;
    }
    Ok(())
}

fn settle_from(
    nodes: &[Node],
    states: &mut [State],
    way: &mut Vec<Step>,
    root: u32,
) -> Result<(), NoMemory>
    requires few { length nodes.now < 2 ^ 32 }
    requires within { (s k : ℕ) (node : Node) (r : Signal) → slice_get nodes.now s ≡ Some node → slice_get node.reads k ≡ Some r → r.0 < length nodes.now }
    requires root { root < length nodes.now }
    requires way { IsWay nodes.now states.old [] }
    requires empty { way.old.items ≡ [] }
    ensures way { OnOk result (IsWay nodes.now states.new []) }
    ensures empty { OnOk result (way.new.items ≡ []) }
    ensures later { OnOk result (IsLater states.old states.new) }
    ensures root { OnOk result (slice_get states.new root ≡ Some State.New → ⊥) }
{
    if !states[root as usize].is_new() {
        return Ok(());
    }
    open(states, way, root)?;
    while let Some(step) = way.pop() {
        take_step(nodes, states, way, step)?;
    }
    Ok(())
}

/// Puts a new signal on the way.
fn open(states: &mut [State], way: &mut Vec<Step>, signal: u32) -> Result<(), NoMemory>
    requires { signal < length states.old }
    ensures states { OnOk result (states.new ≡ slice_set states.old signal State.Open) }
    ensures way { OnOk result (way.new.items ≡ way.old.items ++ record { signal = signal; read = 0 } ∷ []) }
{
    way.push(Step { signal, read: 0 })?;
    states[signal as usize] = State::Open;
    Ok(())
}

/// Goes on from the last step of the way: to a signal that it waits for, or back from it.
fn take_step(
    nodes: &[Node],
    states: &mut [State],
    way: &mut Vec<Step>,
    step: Step,
) -> Result<(), NoMemory>
    requires few { length nodes.now < 2 ^ 32 }
    requires within { (s k : ℕ) (node : Node) (r : Signal) → slice_get nodes.now s ≡ Some node → slice_get node.reads k ≡ Some r → r.0 < length nodes.now }
    requires way { IsWay nodes.now states.old (way.old.items ++ step ∷ []) }
    ensures way { OnOk result (IsWay nodes.now states.new way.new.items) }
    ensures later { OnOk result (IsLater states.old states.new) }
    ensures nearer { OnOk result (length way.new.items + 2 * new_count states.new ≤ length way.old.items + 2 * new_count states.old) }
{
    let node = &nodes[step.signal as usize];
    let reads = node.reads.as_slice();
    match first_without(reads, states, step.read) {
        None => {
            states[step.signal as usize] = State::Known(depth_by(node, states));
            Ok(())
        }
        Some(read) => {
            way.push(Step {
                signal: step.signal,
                read,
            })?;
            wait_for(nodes, states, way, reads[read].0)
        }
    }
}

/// Goes on to a signal without depth that the last step of the way reads; gives the way up where the signal leads back
/// to a cycle.
fn wait_for(
    nodes: &[Node],
    states: &mut [State],
    way: &mut Vec<Step>,
    signal: u32,
) -> Result<(), NoMemory>
    requires signal { signal < length nodes.now }
    requires way { IsWay nodes.now states.old way.old.items }
    requires unknown { (d : ℕ) → HasDepth states.old signal d → ⊥ }
    requires leads { (a : Step) (i : ℕ) → i + 1 ≡ length way.old.items → slice_get way.old.items i ≡ Some a → Leads nodes.now a (record { signal = signal; read = 0 }) }
    requires some { 0 < length way.old.items }
    ensures way { OnOk result (IsWay nodes.now states.new way.new.items) }
    ensures later { OnOk result (IsLater states.old states.new) }
    ensures nearer { OnOk result (length way.new.items + 2 * new_count states.new + 1 ≤ length way.old.items + 2 * new_count states.old) }
{
    if states[signal as usize].is_new() {
        open(states, way, signal)?;
        Ok(())
    } else {
        give_up(states, way);
        Ok(())
    }
}

/// All signals on the way lead back to a cycle.
fn give_up(states: &mut [State], way: &mut Vec<Step>)
    requires { (i : ℕ) (step : Step) → slice_get way.old.items i ≡ Some step → step.signal < length states.old }
    ensures states { IsGivenUp way.old.items (length way.old.items) states.old states.new }
    ensures way { way.new.items ≡ [] }
{
    for step in way.iter() {
        states[step.signal as usize] = State::Endless;
    }
    way.clear();
}

/// The first place from `from` on whose signal has no depth.
fn first_without(reads: &[Signal], states: &[State], from: usize) -> Option<usize>
    requires within { (k : ℕ) (r : Signal) → slice_get reads.now k ≡ Some r → r.0 < length states.now }
    requires passed { (k : ℕ) (r : Signal) → k < from → slice_get reads.now k ≡ Some r → (e : ℕ) × HasDepth states.now r.0 e }
    ensures here { IfSome result (λ read. (r : Signal) × (slice_get reads.now read ≡ Some r) × ((e : ℕ) → HasDepth states.now r.0 e → ⊥)) }
    ensures passed { IfSome result (λ read. (k : ℕ) (r : Signal) → k < read → slice_get reads.now k ≡ Some r → (e : ℕ) × HasDepth states.now r.0 e) }
    ensures none { IfNone result ((k : ℕ) (r : Signal) → slice_get reads.now k ≡ Some r → (e : ℕ) × HasDepth states.now r.0 e) }
{
    for read in from..reads.len() {
        if !states[reads[read].0 as usize].has_depth() {
            return Some(read);
        }
    }
    None
}

/// The depth of a signal whose reads have their depths.
fn depth_by(node: &Node, states: &[State]) -> u32
    requires room { (e : ℕ) → IsGreatest states.now node.now.reads e → e + 1 < 2 ^ 32 }
    requires known { (k : ℕ) (r : Signal) → slice_get node.now.reads k ≡ Some r → (e : ℕ) × HasDepth states.now r.0 e }
    ensures { IsDepthOf states.now node.now result }
{
    let most = greatest(node.reads.as_slice(), states);
    if node.latch.is_some() { most + 1 } else { most }
}

fn greatest(reads: &[Signal], states: &[State]) -> u32
    requires { (k : ℕ) (r : Signal) → slice_get reads.now k ≡ Some r → (e : ℕ) × HasDepth states.now r.0 e }
    ensures { IsGreatest states.now reads.now result }
{
    let mut most = 0;
    for signal in reads.iter() {
        let depth = states[signal.0 as usize].depth();
        if most < depth {
            most = depth;
        }
    }
    most
}

impl State {
    fn is_new(self) -> bool
        ensures yes { result ≡ true → self ≡ State.New }
        ensures not { result ≡ false → self ≡ State.New → ⊥ }
    {
        matches!(self, State::New)
    }

    /// The depth that was found.
    pub(crate) fn known(self) -> Option<u32>
        ensures some { IfSome result (λ d. self ≡ State.Known d) }
        ensures none { IfNone result ((d : ℕ) → self ≡ State.Known d → ⊥) }
    {
        match self {
            State::Known(depth) => Some(depth),
            _ => None,
        }
    }

    pub(crate) fn is_endless(self) -> bool
        ensures yes { result ≡ true → self ≡ State.Endless }
        ensures not { result ≡ false → self ≡ State.Endless → ⊥ }
    {
        matches!(self, State::Endless)
    }

    fn has_depth(self) -> bool
        ensures { result ≡ is_some (depth_of self) }
    {
        matches!(self, State::Known(_) | State::Removed)
    }

    /// The depth, where it is known.
    fn depth(self) -> u32
        ensures { IfSome (depth_of self) (λ d. d ≡ result) }
    {
        match self {
            State::Known(depth) => depth,
            _ => 0,
        }
    }
}
