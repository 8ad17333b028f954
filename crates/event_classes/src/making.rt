//! Class maps are made.

ghost use Rattle.std.specs.Prelude.{◌≡◌, ◌≤◌, length, Option, Err, All, IfOk, OnOk};
ghost use Rattle.circuit_theory.specs.declared.Side.{Side};
ghost use Rattle.circuit_theory.specs.Depth.{LatchesHaveDepths};
ghost use Rattle.flat_net.specs.View.{circuit_of};
ghost use Rattle.event_nodes.specs.View.{Enabled};
ghost use Rattle.class_search.specs.event_order.Order.{IsTagOf, IsTagOrder};
ghost use Rattle.class_search.specs.pair_decide.Proof.{Proof};
ghost use Rattle.sec_base.specs.declared.basics.Tag.{Tag};
ghost use Rattle.event_classes.specs.declared.error.EventError.TheVariants as event_error;
ghost use Rattle.event_classes.specs.Map.{IsBegun, IsMadeTo, IsClassMapOf};
ghost use Rattle.event_classes.specs.Refused.{IsTooMany, IsTooHeavy, IsLimitOf};
ghost use Rattle.event_classes.specs.Steps.{HaveDepths};

use crate::error::EventError;
use crate::joining::join_next;
use crate::map::ClassMap;
use class_search::class_fits::{EnableTable, latches_in_order};
use event_nodes::{Counter, EventCircuit, EventGraph};
use sec_base::{MAX_CONFLICTS, MAX_ENABLED_LATCHES, NoMemory, Tag};
use std::alloc::Global;

/// The class map of two circuits whose latches are all of class 0 so far. The enabled latches are taken in their order, by depth, then
/// those of the first circuit before those of the second, then by position; each joins the first class all of whose members agree with
/// it wherever both have care, or founds the next. The refusals come at the first latch that passes a number, or whose query meets the limit; more
/// than 30,000 latches are refused first of all. A limit names the latch and the other one of the query, None for `always`.
pub fn make_classes(
    alloc: Global,
    left: EventCircuit,
    right: EventCircuit,
    conflicts: u32,
) -> Result<ClassMap, EventError>
    requires left_depths { LatchesHaveDepths (circuit_of left.net) (Enabled left) }
    requires right_depths { LatchesHaveDepths (circuit_of right.net) (Enabled right) }
    requires left_classes { All (λ k. k ≡ 0) left.classes }
    requires right_classes { All (λ k. k ≡ 0) right.classes }
    requires conflicts { conflicts ≤ MAX_CONFLICTS }
    ensures made { IfOk result (IsClassMapOf left right) }
    ensures many { result ≡ Err event_error.TooManyEvents → IsTooMany left right }
    ensures large { (side : Side) → result ≡ Err (event_error.TooLarge side) → IsTooHeavy left right side }
    ensures limit { (latch : Tag) (other : Option Tag) (proof : Proof) → result ≡ Err (event_error.Limit latch other proof) → IsLimitOf left right latch other conflicts proof }
{
    left.keeps();
    right.keeps();
    let tags = latches_in_order(alloc, &left, &right)?;
    if tags.len() > MAX_ENABLED_LATCHES {
        return Err(EventError::TooManyEvents);
    }
    make_over(alloc, left, right, tags.as_slice(), conflicts)
}

/// The same of these latches, in their order. Where it is refused, the map is let go by one call.
fn make_over(
    alloc: Global,
    left: EventCircuit,
    right: EventCircuit,
    tags: &[Tag],
    conflicts: u32,
) -> Result<ClassMap, EventError>
    requires left_depths { LatchesHaveDepths (circuit_of left.net) (Enabled left) }
    requires right_depths { LatchesHaveDepths (circuit_of right.net) (Enabled right) }
    requires left_classes { All (λ k. k ≡ 0) left.classes }
    requires right_classes { All (λ k. k ≡ 0) right.classes }
    requires named { All (IsTagOf left.net right.net) tags.now }
    requires order { IsTagOrder left.net right.net tags.now }
    requires few { length tags.now ≤ 30000 }
    requires conflicts { conflicts ≤ MAX_CONFLICTS }
    ensures made { IfOk result (IsClassMapOf left right) }
    ensures many { result ≡ Err event_error.TooManyEvents → IsTooMany left right }
    ensures large { (side : Side) → result ≡ Err (event_error.TooLarge side) → IsTooHeavy left right side }
    ensures limit { (latch : Tag) (other : Option Tag) (proof : Proof) → result ≡ Err (event_error.Limit latch other proof) → IsLimitOf left right latch other conflicts proof }
{
    left.keeps();
    right.keeps();
    let mut map = begin(alloc, left, right)?;
    match join_all(alloc, &mut map, tags, conflicts) {
        Ok(()) => {
            map.left.keeps();
            map.right.keeps();
            map.events.keeps();
            map.left_count.keeps();
            map.right_count.keeps();
            Ok(map)
        }
        Err(error) => {
            drop(map);
            Err(error)
        }
    }
}

/// No latch is taken.
fn begin(alloc: Global, left: EventCircuit, right: EventCircuit) -> Result<ClassMap, NoMemory>
    ensures { IfOk result (IsBegun left right) }
{
    let events = EventGraph::new(alloc)?;
    Ok(ClassMap {
        left,
        right,
        events,
        left_count: Counter::new(alloc),
        right_count: Counter::new(alloc),
        table: EnableTable::new(alloc),
        classes: Vec::new(alloc),
        aparts: Vec::new(alloc),
        taken: Vec::new(alloc),
    })
}

/// All these latches are given their classes, one after the other.
fn join_all(
    alloc: Global,
    map: &mut ClassMap,
    tags: &[Tag],
    conflicts: u32,
) -> Result<(), EventError>
    requires named { All (IsTagOf map.old.left.net map.old.right.net) tags.now }
    requires begins { IsMadeTo map.old map.old tags.now 0 }
    requires depths { HaveDepths map.old.left map.old.right }
    requires few { length tags.now ≤ 30000 }
    requires conflicts { conflicts ≤ MAX_CONFLICTS }
    ensures made { OnOk result (IsMadeTo map.old map.new tags.now (length tags.now)) }
    ensures many { result ≡ Err event_error.TooManyEvents → IsTooMany map.old.left map.old.right }
    ensures large { (side : Side) → result ≡ Err (event_error.TooLarge side) → IsTooHeavy map.old.left map.old.right side }
    ensures limit { (latch : Tag) (other : Option Tag) (proof : Proof) → result ≡ Err (event_error.Limit latch other proof) → IsLimitOf map.old.left map.old.right latch other conflicts proof }
{
    for at in 0..tags.len() {
        map.left.keeps();
        map.right.keeps();
        map.events.keeps();
        map.left_count.keeps();
        map.right_count.keeps();
        join_next(alloc, map, tags[at], conflicts)?;
    }
    Ok(())
}
