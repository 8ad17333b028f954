//! What the event form asks of each pair.

ghost use Rattle.std.specs.Prelude.{◌≡◌, ◌<◌, ◌&&◌, not, [], ◌∷◌, length, All, IfOk, OnOk};
ghost use Rattle.circuit_theory.specs.Joined.{Left, Right};
ghost use Rattle.event_form.specs.event_agreement.event_pairs.Functions.{IsEventFunction};
ghost use Rattle.event_form.specs.Asked.{AreAsked, IsAskedOf, IsPairOf, IsLater, HasGraphMore, IsQueryOf, IsReadyFunction};
ghost use Rattle.obligations.specs.Asked.{AreAsked as AreQueries};
ghost use Rattle.event_form.specs.Counted.{CountsOn, CountPairOn, left_starts, right_starts};
ghost use Rattle.event_form.specs.Refused.{IsRefusedFor, IsToldAs};
ghost use Rattle.event_form.specs.Stopped.{IsPairStopped, IsSignalStopped, IsStoppedFor};
ghost use Rattle.event_classes.specs.event_functions.Functions.{signal_start};
ghost use Rattle.event_form.specs.event_agreement.pair_events.Counted.{GoOnCounting, left_with, right_with};
ghost use Rattle.event_form.specs.event_agreement.pair_events.View.{IsWithinLimits, circuit_at, side_of_both, signal_at};

use crate::error::EventFormError;
use crate::event_agreement::pair_events::{EventUnfoldError, Events, Query, SignalFunction};
use crate::nodes::union_of;
use aig::{NoMemory, Side};
use obligations::{Obligation, Queries, copy_name};
use sec_setup::ports::{Signal, SignalPair};
use std::alloc::Global;

/// What is asked of each pair, in order: whether both event functions agree wherever both have care. A difference shows that the circuits
/// differ where no latch is cut open and both sides reach latches of class 0 alone. The pairs are unfolded one after the other, each first in
/// A, then in B.
pub fn ask_pairs(
    alloc: Global,
    events: &mut Events,
    pairs: &[SignalPair],
    cut: bool,
) -> Result<Vec<Obligation>, EventFormError>
    requires pairs { All (IsPairOf events.old) pairs.now }
    requires within { IsWithinLimits events.old }
    ensures asked { IfOk result (λ asked. AreAsked (side_of_both events.new) events.new.events cut pairs.now asked.items) }
    ensures queries { IfOk result (λ asked. AreQueries events.new.events.graph asked.items) }
    ensures within { OnOk result (IsWithinLimits events.new) }
    ensures later { OnOk result (IsLater events.old events.new) }
    ensures counted { OnOk result (CountsOn pairs.now events.old events.new) }
    ensures refused { IsRefusedFor (left_starts pairs.now) (right_starts pairs.now) events.old result }
    ensures stopped { IsStoppedFor pairs.now events.old result }
{
    events.keeps();
    let mut asked = Vec::new(alloc);
    for i in 0..pairs.len() {
        let obligation = ask_pair(alloc, events, &pairs[i], cut)?;
        events.keeps();
        asked.push(obligation)?;
    }
    events.keeps();
    Ok(asked)
}

/// What is asked of one pair.
fn ask_pair(
    alloc: Global,
    events: &mut Events,
    pair: &SignalPair,
    cut: bool,
) -> Result<Obligation, EventFormError>
    requires pair { IsPairOf events.old pair.now }
    requires within { IsWithinLimits events.old }
    ensures asked { IfOk result (IsAskedOf (side_of_both events.new) events.new.events cut pair.now) }
    ensures within { OnOk result (IsWithinLimits events.new) }
    ensures later { OnOk result (IsLater events.old events.new) }
    ensures counted { OnOk result (CountPairOn pair.now events.old events.new) }
    ensures refused { IsRefusedFor (signal_start pair.now.left.0 ∷ []) (signal_start pair.now.right.0 ∷ []) events.old result }
    ensures stopped { IsPairStopped pair.now events.old result }
{
    events.keeps();
    let left = unfold(alloc, events, Side::A, pair.left)?;
    events.keeps();
    let right = unfold(alloc, events, Side::B, pair.right)?;
    events.keeps();
    let obligation = obligation_of(alloc, events, pair, cut, &left, &right)?;
    Ok(obligation)
}

/// The event function of a signal of one circuit, counted with what was counted before. The refusals are those of `ask_pairs`.
pub fn unfold(
    alloc: Global,
    events: &mut Events,
    side: Side,
    s: Signal,
) -> Result<SignalFunction, EventFormError>
    requires signal { s.0 < length (circuit_at side events.old).net.drivers }
    requires within { IsWithinLimits events.old }
    ensures function { IfOk result (IsEventFunction (side_of_both events.new) events.new.events (signal_at side s.0)) }
    ensures within { OnOk result (IsWithinLimits events.new) }
    ensures later { OnOk result (IsLater events.old events.new) }
    ensures counted { OnOk result (GoOnCounting side s.0 events.old events.new) }
    ensures refused { IsRefusedFor (left_with side s.0 []) (right_with side s.0 []) events.old result }
    ensures stopped { IsSignalStopped side s.0 events.old result }
{
    let made = events.unfold(alloc, side, s);
    told(side, made)
}

/// What the unfolding of a signal of this circuit gives.
fn told(
    side: Side,
    made: Result<SignalFunction, EventUnfoldError>,
) -> Result<SignalFunction, EventFormError>
    ensures { IsToldAs side made result }
{
    match made {
        Ok(function) => Ok(function),
        Err(EventUnfoldError::TooManyEvents) => Err(EventFormError::TooManyEvents),
        Err(EventUnfoldError::TooLarge) => Err(EventFormError::TooLarge(side)),
        Err(EventUnfoldError::NoMemory) => Err(EventFormError::NoMemory),
    }
}

/// What is asked of a pair with these event functions.
fn obligation_of(
    alloc: Global,
    events: &mut Events,
    pair: &SignalPair,
    cut: bool,
    left: &SignalFunction,
    right: &SignalFunction,
) -> Result<Obligation, NoMemory>
    requires left { IsEventFunction (side_of_both events.old) events.old.events (Left pair.now.left.0) left.now }
    requires right { IsEventFunction (side_of_both events.old) events.old.events (Right pair.now.right.0) right.now }
    ensures asked { IfOk result (IsAskedOf (side_of_both events.new) events.new.events cut pair.now) }
    ensures more { HasGraphMore events.old events.new }
{
    events.keeps();
    let query = query_of(alloc, events, left, right)?;
    events.keeps();
    let nodes = union_of(alloc, left.nodes.as_slice(), right.nodes.as_slice())?;
    let Ok(size) = u32::try_from(nodes.len()) else {
        return Err(NoMemory);
    };
    let mut queries = Queries::new(alloc);
    queries.push(query)?;
    let name = copy_name(&pair.name)?;
    Ok(Obligation {
        name,
        size,
        decisive: is_decisive(cut, left.only_always, right.only_always),
        queries,
    })
}

/// Whether a difference shows that the circuits differ: no latch is cut open, and each side reaches latches of class 0 alone.
fn is_decisive(cut: bool, left_only: bool, right_only: bool) -> bool
    ensures { result ≡ (not cut && left_only && right_only) }
{
    !cut && left_only && right_only
}

/// Whether both functions agree wherever both have care.
fn query_of(
    alloc: Global,
    events: &mut Events,
    left: &SignalFunction,
    right: &SignalFunction,
) -> Result<Query, NoMemory>
    requires left { IsReadyFunction events.old.events left.now }
    requires right { IsReadyFunction events.old.events right.now }
    ensures query { IfOk result (IsQueryOf events.new.events left.now right.now) }
    ensures more { HasGraphMore events.old events.new }
{
    events.keeps();
    let care = events.and(left.care, right.care)?;
    events.keeps();
    let vars = events.merge(alloc, left.vars.as_slice(), right.vars.as_slice())?;
    Ok(Query {
        left: left.value,
        right: right.value,
        care,
        vars,
    })
}
