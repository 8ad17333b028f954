//! What shows a difference of what is asked of pairs.

ghost use Rattle.std.specs.Prelude.{◌≡◌, length, IfOk};
ghost use Rattle.base_tables.specs.Table.{AreDistinct};
ghost use Rattle.event_form.specs.event_findings.event_witness.Shown.{IsShowable, IsUnshownAt, IsWitnessAt};

use crate::event_findings::event_witness::unshown::{UnshownFrame, unshown_of};
use crate::event_findings::event_witness::witness::witness_of;
use crate::{Difference, Events, Obligation};
use obligations::outcome::Witness;
use sec_base::{NoMemory, Words};
use std::alloc::Global;

/// The sequence of a difference, which ends in the cycle of its pair's depth, over the inputs of these names.
pub fn witness_at(
    alloc: Global,
    events: &Events,
    asked: &[Obligation],
    difference: &Difference,
    depths: &[u32],
    names: &Words,
) -> Result<Witness, NoMemory>
    requires shown { IsShowable events.now.events asked.now difference.now }
    requires depths { length depths.now ≡ length asked.now }
    requires distinct { AreDistinct names.now }
    ensures { IfOk result (IsWitnessAt events.now.events asked.now depths.now names.now difference.now) }
{
    let obligation = &asked[difference.pair];
    let query = &obligation.queries.as_slice()[difference.query];
    let last = depths[difference.pair];
    witness_of(
        alloc,
        events,
        query,
        &difference.bits,
        &obligation.name,
        last,
        names,
    )
}

/// The frame of a difference.
pub fn unshown_at(
    alloc: Global,
    events: &Events,
    asked: &[Obligation],
    difference: &Difference,
) -> Result<UnshownFrame, NoMemory>
    requires { IsShowable events.now.events asked.now difference.now }
    ensures { IfOk result (IsUnshownAt events.now.events asked.now difference.now) }
{
    let obligation = &asked[difference.pair];
    let query = &obligation.queries.as_slice()[difference.query];
    unshown_of(alloc, events, query, &difference.bits, &obligation.name)
}
