//! What a pair reaches.

ghost use Rattle.std.specs.Prelude.{◌≡◌, ◌&&◌, [], ◌∷◌, IfOk, OnOk};
ghost use Rattle.event_form.specs.Asked.{IsLater, IsPairOf};
ghost use Rattle.event_form.specs.Refused.{IsRefusedFor};
ghost use Rattle.event_form.specs.Functions.{signal_start};
ghost use Rattle.event_form.specs.event_agreement.pair_events.View.{IsWithinLimits, side_of_both};
ghost use Rattle.event_form.specs.event_findings.unshown_pairs.Reached.{IsReachOf, StaysCounted};

use crate::event_findings::unshown_pairs::class_events::Events;
use crate::{EventFormError, unfold, union_of};
use sec_base::Side;
use sec_setup::ports::SignalPair;
use std::alloc::Global;

/// What the sides of a pair reach.
#[derive(Drop)]
pub struct PairReach {
    /// The event nodes that either side reaches, each once.
    pub nodes: Vec<u32>,
    /// Whether both sides reach latches of class 0 alone.
    pub only_always: bool,
}

/// What the sides of a pair reach, which are unfolded for that, first in A, then in B. What was counted stays so where the pair was counted.
pub fn reach_of(
    alloc: Global,
    events: &mut Events,
    pair: &SignalPair,
) -> Result<PairReach, EventFormError>
    requires pair { IsPairOf events.old pair.now }
    requires within { IsWithinLimits events.old }
    ensures reach { IfOk result (IsReachOf (side_of_both events.new) events.new.events.children pair.now) }
    ensures within { OnOk result (IsWithinLimits events.new) }
    ensures later { OnOk result (IsLater events.old events.new) }
    ensures counted { OnOk result (StaysCounted pair.now events.old events.new) }
    ensures refused { IsRefusedFor (signal_start pair.now.left.0 ∷ []) (signal_start pair.now.right.0 ∷ []) events.old result }
{
    events.keeps();
    let left = unfold(alloc, events, Side::A, pair.left)?;
    events.keeps();
    let right = unfold(alloc, events, Side::B, pair.right)?;
    events.keeps();
    let nodes = union_of(alloc, left.nodes.as_slice(), right.nodes.as_slice())?;
    Ok(PairReach {
        nodes,
        only_always: both(left.only_always, right.only_always),
    })
}

fn both(left: bool, right: bool) -> bool
    ensures { result ≡ (left && right) }
{
    left && right
}
