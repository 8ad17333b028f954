//! Whether a latch has a load enable.

ghost use Rattle.std.specs.Prelude.{◌≡◌, ℕ, true, false, ◌+◌, ◌*◌, ◌^◌, ◌<◌, ◌≤◌, length, slice_get, Some, Contains, IsTrue, ◌↔◌, IfOk};
ghost use Rattle.std.specs.List.{sum_by};
ghost use Rattle.flat_net.specs.View.{circuit_of};
ghost use Rattle.aig.specs.Graph.{vars_of};
ghost use Rattle.flat_net.specs.Weights.{weight_at};
ghost use Rattle.latch_kinds.specs.unate_enable.Walks.{AreReached};
ghost use Rattle.latch_kinds.specs.declared.unate_enable.support.LatchCone.{LatchCone};
ghost use Rattle.latch_kinds.specs.unate_enable.Cones.{data_of_latch, out_of_latch, IsConeOfLatch, places_of};
ghost use Rattle.latch_kinds.specs.unate_enable.Building.{AreClosed};
ghost use Rattle.signal_graph.specs.inner_cone.Inner.{AreInside};
ghost use Rattle.latch_kinds.specs.unate_enable.Recovery.{IsRecovery, IsEnabledAt, AreFactsOf, IsTooLarge, IsAnswer, IsQueryOf, recovery_of};
ghost use Rattle.latch_kinds.specs.declared.unate_enable.recovery.RecoverError.TheVariants as recover_error;

use crate::unate_enable::cone_literals::lit_with;
use crate::unate_enable::facts::NetFacts;
use crate::unate_enable::reached_signals::reached;
use crate::unate_enable::reads::are_light;
use crate::unate_enable::sources::{cone_among, places};
use crate::unate_enable::ways::never_falls;
use aig::Aig;
use flat_net::{Net, Signal, latch_of};
use pair_decide::{Decision, Proof, Query, decide};
use sec_base::{Bits, Ids, MAX_CONFLICTS, MAX_WEIGHT, NoMemory};
use signal_graph::inner_cone::inside;
use std::alloc::Global;

/// The limit of conflicts from which on the covers are looked at before the query.
const FEW: u32 = 20;

/// What is found out about a latch.
#[derive(Drop)]
pub enum Recovery {
    /// The latch isn't in the cone of what it takes over.
    Plain,
    /// It is, and what it takes over never goes down where the latch itself goes up.
    Enabled,
    /// A bit for each input and then for each latch of its cone, with which it takes over 1 where it is 0, and 0 where it is 1.
    NotUnate(Bits),
    /// The search for such bits met the limit.
    Limit(Proof),
}

/// Why nothing is found out about a latch.
#[derive(Clone, Copy)]
pub enum RecoverError {
    /// The latch is in its own cone, which weighs more than 2,000,000.
    TooLarge,
    /// Memory was wanted.
    NoMemory,
}

impl From<NoMemory> for RecoverError {
    ghost use Rattle.std.specs.Prelude.{◌≡◌};
    ghost use Rattle.latch_kinds.specs.declared.unate_enable.recovery.RecoverError.TheVariants as recover_error;

    ghost from_gives = { λ _ e. e ≡ recover_error.NoMemory };

    fn from(_error: NoMemory) -> RecoverError {
        RecoverError::NoMemory
    }
}

/// Finds out whether the latch has a load enable. It looks at no signals but those of the latch's cone.
pub fn recover(
    alloc: Global,
    net: &Net,
    latch: u32,
    conflicts: u32,
) -> Result<Recovery, RecoverError>
    requires latch { latch < length net.now.latches }
    requires conflicts { conflicts ≤ MAX_CONFLICTS }
    ensures recovery { IfOk result (IsRecovery net.now latch conflicts) }
    ensures large { result ≡ Err recover_error.TooLarge → IsTooLarge net.now latch }
{
    recover_whole(alloc, net, latch, conflicts, false)
}

/// The same, with what is known of the net. Of the cone it looks at what leads back to the latch alone, if that tells the answer.
pub fn recover_by(
    alloc: Global,
    net: &Net,
    facts: &NetFacts,
    latch: u32,
    conflicts: u32,
) -> Result<Recovery, RecoverError>
    requires facts { AreFactsOf net.now facts.now }
    requires latch { latch < length net.now.latches }
    requires conflicts { conflicts ≤ MAX_CONFLICTS }
    ensures recovery { IfOk result (IsRecovery net.now latch conflicts) }
    ensures large { result ≡ Err recover_error.TooLarge → IsTooLarge net.now latch }
{
    net.keeps();
    let at = latch_of(net, latch);
    let signals = inside(alloc, net, facts.ranks.as_slice(), at.next, at.out)?;
    recover_inside(alloc, net, facts, latch, signals.as_slice(), conflicts)
}

/// The same, with the signals that lead back to the latch.
fn recover_inside(
    alloc: Global,
    net: &Net,
    facts: &NetFacts,
    latch: u32,
    signals: &[u32],
    conflicts: u32,
) -> Result<Recovery, RecoverError>
    requires facts { AreFactsOf net.now facts.now }
    requires latch { latch < length net.now.latches }
    requires conflicts { conflicts ≤ MAX_CONFLICTS }
    requires inside { AreInside net.now (data_of_latch net.now latch) (out_of_latch net.now latch) signals.now }
    ensures recovery { IfOk result (IsRecovery net.now latch conflicts) }
    ensures large { result ≡ Err recover_error.TooLarge → IsTooLarge net.now latch }
{
    net.keeps();
    let at = latch_of(net, latch);
    if !is_among(signals, at.out) {
        return Ok(Recovery::Plain);
    }
    let skip = is_query_alone(facts, conflicts);
    let shown = is_shown(alloc, net, latch, signals, skip)?;
    if shown {
        return Ok(Recovery::Enabled);
    }
    recover_whole(alloc, net, latch, conflicts, !skip)
}

/// Whether the query alone can tell of a latch that it is enabled: with few conflicts, or where the cone's weight isn't known.
fn is_query_alone(facts: &NetFacts, conflicts: u32) -> bool
    ensures { result ≡ false → facts.now.light ≡ true }
{
    !facts.light || conflicts < FEW
}

/// Finds it out by the whole cone. With `looked` the covers aren't looked at once more.
fn recover_whole(
    alloc: Global,
    net: &Net,
    latch: u32,
    conflicts: u32,
    looked: bool,
) -> Result<Recovery, RecoverError>
    requires latch { latch < length net.now.latches }
    requires conflicts { conflicts ≤ MAX_CONFLICTS }
    ensures recovery { IfOk result (IsRecovery net.now latch conflicts) }
    ensures large { result ≡ Err recover_error.TooLarge → IsTooLarge net.now latch }
{
    net.keeps();
    let at = latch_of(net, latch);
    let signals = reached(alloc, net, at.next)?;
    recover_over(alloc, net, latch, signals.as_slice(), conflicts, looked)
}

/// The same, with the signals of the cone.
fn recover_over(
    alloc: Global,
    net: &Net,
    latch: u32,
    signals: &[u32],
    conflicts: u32,
    looked: bool,
) -> Result<Recovery, RecoverError>
    requires latch { latch < length net.now.latches }
    requires conflicts { conflicts ≤ MAX_CONFLICTS }
    requires reached { AreReached (circuit_of net.now) (length net.now.drivers) (data_of_latch net.now latch) signals.now }
    ensures recovery { IfOk result (IsRecovery net.now latch conflicts) }
    ensures large { result ≡ Err recover_error.TooLarge → IsTooLarge net.now latch }
{
    net.keeps();
    let at = latch_of(net, latch);
    if !is_among(signals, at.out) {
        return Ok(Recovery::Plain);
    }
    if !are_light(net, signals) {
        return Err(RecoverError::TooLarge);
    }
    let skip = looked || conflicts < FEW;
    let recovery = ask(alloc, net, latch, signals, conflicts, skip)?;
    Ok(recovery)
}

fn is_among(signals: &[u32], s: Signal) -> bool
    ensures { IsTrue result ↔ Contains signals.now s.0 }
{
    signals.contains(&s.0)
}

/// Asks for values with which the latch falls. The signals are those of its cone, the latch among them. With `skip` the covers
/// aren't looked at before.
fn ask(
    alloc: Global,
    net: &Net,
    latch: u32,
    signals: &[u32],
    conflicts: u32,
    skip: bool,
) -> Result<Recovery, NoMemory>
    requires latch { latch < length net.now.latches }
    requires conflicts { conflicts ≤ MAX_CONFLICTS }
    requires reached { AreReached (circuit_of net.now) (length net.now.drivers) (data_of_latch net.now latch) signals.now }
    requires own { Contains signals.now (out_of_latch net.now latch) }
    requires light { sum_by (weight_at net.now) signals.now ≤ MAX_WEIGHT }
    ensures { IfOk result (IsAnswer net.now latch conflicts) }
{
    net.keeps();
    let shown = is_shown(alloc, net, latch, signals, skip)?;
    if shown {
        return Ok(Recovery::Enabled);
    }
    let places = places_among(alloc, net, latch, signals)?;
    ask_over(alloc, net, latch, signals, places.as_slice(), conflicts)
}

/// The places of the latch's cone.
fn places_among(alloc: Global, net: &Net, latch: u32, signals: &[u32]) -> Result<Ids, NoMemory>
    requires reached { AreReached (circuit_of net.now) (length net.now.drivers) (data_of_latch net.now latch) signals.now }
    ensures { IfOk result (λ places. (cone : LatchCone) × IsConeOfLatch net.now latch cone × (places ≡ places_of net.now cone)) }
{
    net.keeps();
    let cone = cone_among(alloc, net, latch, signals)?;
    places(alloc, net, &cone)
}

/// Whether the covers of what leads back to the latch show that it is enabled. With `skip` they aren't looked at: with few
/// conflicts nothing but the query tells it.
fn is_shown(
    alloc: Global,
    net: &Net,
    latch: u32,
    signals: &[u32],
    skip: bool,
) -> Result<bool, NoMemory>
    requires latch { latch < length net.now.latches }
    requires inside { AreInside net.now (data_of_latch net.now latch) (out_of_latch net.now latch) signals.now }
    requires own { Contains signals.now (out_of_latch net.now latch) }
    ensures enabled { IfOk result (λ shown. IsTrue shown → IsEnabledAt net.now latch) }
    ensures looked { IfOk result (λ shown. IsTrue shown → skip ≡ false) }
{
    if skip {
        return Ok(false);
    }
    net.keeps();
    let at = latch_of(net, latch);
    let shown = never_falls(alloc, net, signals, at.out, at.next)?;
    Ok(shown)
}

/// The same over the signals of the inputs and then of the other latches of its cone.
fn ask_over(
    alloc: Global,
    net: &Net,
    latch: u32,
    signals: &[u32],
    places: &[u32],
    conflicts: u32,
) -> Result<Recovery, NoMemory>
    requires latch { latch < length net.now.latches }
    requires conflicts { conflicts ≤ MAX_CONFLICTS }
    requires reached { AreReached (circuit_of net.now) (length net.now.drivers) (data_of_latch net.now latch) signals.now }
    requires own { Contains signals.now (out_of_latch net.now latch) }
    requires light { sum_by (weight_at net.now) signals.now ≤ MAX_WEIGHT }
    requires places { (cone : LatchCone) × IsConeOfLatch net.now latch cone × (places.now ≡ places_of net.now cone) }
    ensures { IfOk result (IsAnswer net.now latch conflicts) }
{
    net.keeps();
    let mut aig = Aig::new(alloc)?;
    let query = query_of(alloc, net, latch, signals, places, &mut aig)?;
    aig.keeps();
    let decision = decide(alloc, &aig, &query, conflicts)?;
    recovery_of(decision)
}

/// What the decision says of the latch, as its caller gives it on: the layout of a recovery by itself is dear to prove.
fn recovery_of(decision: Decision) -> Result<Recovery, NoMemory>
    ensures { IfOk result (λ recovery. recovery ≡ recovery_of decision) }
{
    match decision {
        Decision::Same(_) => Ok(Recovery::Enabled),
        Decision::Differs(bits) => Ok(Recovery::NotUnate(bits)),
        Decision::Limit(proof) => Ok(Recovery::Limit(proof)),
    }
}

/// The query of the latch: f0, f1, and f0 as the care.
fn query_of(
    alloc: Global,
    net: &Net,
    latch: u32,
    signals: &[u32],
    places: &[u32],
    aig: &mut Aig,
) -> Result<Query, NoMemory>
    requires latch { latch < length net.now.latches }
    requires reached { AreReached (circuit_of net.now) (length net.now.drivers) (data_of_latch net.now latch) signals.now }
    requires closed { AreClosed (circuit_of net.now) (out_of_latch net.now latch) places.now signals.now }
    requires few { length places.now ≤ MAX_WEIGHT }
    requires light { sum_by (weight_at net.now) signals.now ≤ MAX_WEIGHT }
    requires small { length aig.old ≤ 1 }
    requires empty { vars_of aig.old ≡ 0 }
    ensures { IfOk result (IsQueryOf net.now latch places.now aig.new) }
{
    net.keeps();
    let at = latch_of(net, latch);
    let low = lit_with(alloc, net, aig, signals, places, at.out, false, at.next)?;
    let high = lit_with(alloc, net, aig, signals, places, at.out, true, at.next)?;
    let vars = numbers(alloc, places.len() as u32)?;
    Ok(Query {
        left: low,
        right: high,
        care: low,
        vars,
    })
}

/// The numbers from 0 on, so many.
fn numbers(alloc: Global, count: u32) -> Result<Ids, NoMemory>
    ensures each { IfOk result (λ numbers. length numbers ≡ count) }
    ensures are { IfOk result (λ numbers. (k : ℕ) → k < count → slice_get numbers k ≡ Some k) }
{
    let mut numbers = Ids::new(alloc);
    for k in 0..count {
        numbers.push(k)?;
    }
    Ok(numbers)
}
