//! The frame of a difference that doesn't show that the circuits differ.

ghost use Rattle.std.specs.Prelude.{◌≡◌, ◌<◌, length, All, IfOk};
ghost use Rattle.obligations.specs.outcome.pair_decide.Queries.{IsQuery};
ghost use Rattle.event_form.specs.event_findings.event_witness.Unshown.{IsUnshownOf};

use crate::event_findings::event_witness::sides::sides_of;
use crate::{Events, FrameBit, copy_name, frame_of};
use obligations::outcome::{PairName, Query};
use sec_base::{Bits, NoMemory};
use std::alloc::Global;

/// A frame in which the sides of a pair differ, though that doesn't show that the circuits do.
#[derive(Drop)]
pub struct UnshownFrame {
    pub pair: PairName,
    /// The value in the first circuit.
    pub left: bool,
    /// The value in the second circuit.
    pub right: bool,
    /// A bit for each variable of the pair, in their order. All else is 0.
    pub frame: Vec<FrameBit>,
}

/// The frame of a pair of this name in which the variables of its query have these bits, with the values of both sides.
pub fn unshown_of(
    alloc: Global,
    events: &Events,
    query: &Query,
    bits: &Bits,
    name: &PairName,
) -> Result<UnshownFrame, NoMemory>
    requires query { IsQuery events.now.events.graph query.now }
    requires within { All (λ v. v < length events.now.events.places) query.now.vars }
    requires each { length bits.now ≡ length query.now.vars }
    ensures { IfOk result (IsUnshownOf events.now.events query.now bits.now name.now) }
{
    let vars = query.vars.as_slice();
    let bits = bits.as_slice();
    let sides = sides_of(alloc, events, query, bits)?;
    let frame = frame_of(alloc, events.graph(), vars, bits)?;
    let pair = copy_name(name)?;
    Ok(UnshownFrame {
        pair,
        left: sides.0,
        right: sides.1,
        frame,
    })
}
