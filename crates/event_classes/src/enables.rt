//! The enable of the next latch.

ghost use Rattle.std.specs.Prelude.{◌≡◌, ◌<◌, length, slice_get, Option, Some, Err, IfOk, OnOk};
ghost use Rattle.circuit_theory.specs.declared.Side.{Side};
ghost use Rattle.circuit_theory.specs.declared.Side.TheVariants.{A, B};
ghost use Rattle.flat_net.specs.declared.parts.LatchAt.{LatchAt};
ghost use Rattle.edbf_unfold.specs.event_literals.event_walk.Walk.{HasCountedStart, IsCounting, enable_start};
ghost use Rattle.event_nodes.specs.declared.error.EventUnfoldError.TheVariants as unfold_error;
ghost use Rattle.event_nodes.specs.Nodes.{GrowsEvents};
ghost use Rattle.event_nodes.specs.Visited.{IsWeighed};
ghost use Rattle.event_classes.specs.event_functions.Refused.{IsRefusal};
ghost use Rattle.class_search.specs.Comparing.{IsReadyEnable};
ghost use Rattle.class_search.specs.event_order.Order.{IsTagOf};
ghost use Rattle.class_search.specs.pair_decide.Proof.{Proof};
ghost use Rattle.sec_base.specs.declared.basics.Tag.{Tag};
ghost use Rattle.event_classes.specs.declared.error.EventError.TheVariants as event_error;
ghost use Rattle.event_classes.specs.Map.{IsWithin, IsEnableOf, IsEnableAt, IsOwnAt, IsEnableOn, CountsOn};
ghost use Rattle.event_classes.specs.Steps.{AreNodesOver, IsWeightOver};

use crate::error::EventError;
use crate::event_functions::class_totals::{EnableFunction, unfold_enable};
use crate::map::ClassMap;
use class_search::class_fits::Enable;
use event_nodes::{Counter, EventCircuit, EventGraph, EventUnfoldError};
use sec_base::{Side, Tag};
use std::alloc::Global;

/// The enable of the latch, which is counted.
pub(crate) fn next_enable(alloc: Global, map: &mut ClassMap, tag: Tag) -> Result<Enable, EventError>
    requires latch { IsTagOf map.old.left.net map.old.right.net tag }
    requires within { IsWithin map.old }
    ensures enable { IfOk result (IsEnableAt map.new tag) }
    ensures own { IfOk result (IsOwnAt map.new tag) }
    ensures ready { IfOk result (IsReadyEnable map.new.events) }
    ensures within { OnOk result (IsWithin map.new) }
    ensures grows { OnOk result (GrowsEvents map.old.events map.new.events) }
    ensures counts { OnOk result (CountsOn map.old map.new tag) }
    ensures many { result ≡ Err event_error.TooManyEvents → AreNodesOver map.old tag }
    ensures large { (side : Side) → result ≡ Err (event_error.TooLarge side) → IsWeightOver map.old tag side }
    ensures limit { (latch : Tag) (other : Option Tag) (proof : Proof) → result ≡ Err (event_error.Limit latch other proof) → ⊥ }
    ensures same { map.new ≡ record map.old { events = map.new.events; left_count = map.new.left_count; right_count = map.new.right_count } }
{
    let made = side_enable(alloc, map, tag)?;
    map.left.keeps();
    map.right.keeps();
    map.events.keeps();
    Ok(made)
}

/// The same, of the circuit of the latch.
fn side_enable(alloc: Global, map: &mut ClassMap, tag: Tag) -> Result<Enable, EventError>
    requires latch { IsTagOf map.old.left.net map.old.right.net tag }
    requires within { IsWithin map.old }
    ensures enable { IfOk result (IsEnableOn tag.side map.new tag.latch) }
    ensures ready { IfOk result (IsReadyEnable map.new.events) }
    ensures within { OnOk result (IsWithin map.new) }
    ensures grows { OnOk result (GrowsEvents map.old.events map.new.events) }
    ensures counts { OnOk result (CountsOn map.old map.new tag) }
    ensures many { result ≡ Err event_error.TooManyEvents → AreNodesOver map.old tag }
    ensures large { (side : Side) → result ≡ Err (event_error.TooLarge side) → IsWeightOver map.old tag side }
    ensures limit { (latch : Tag) (other : Option Tag) (proof : Proof) → result ≡ Err (event_error.Limit latch other proof) → ⊥ }
    ensures same { map.new ≡ record map.old { events = map.new.events; left_count = map.new.left_count; right_count = map.new.right_count } }
{
    match tag.side {
        Side::A => left_enable(alloc, map, tag.latch),
        Side::B => right_enable(alloc, map, tag.latch),
    }
}

/// The enable of the first circuit's latch with this position.
fn left_enable(alloc: Global, map: &mut ClassMap, j: u32) -> Result<Enable, EventError>
    requires latch { j < length map.old.left.net.latches }
    requires within { IsWithin map.old }
    ensures enable { IfOk result (IsEnableOf map.new.left map.new.events j) }
    ensures ready { IfOk result (IsReadyEnable map.new.events) }
    ensures within { OnOk result (IsWithin map.new) }
    ensures grows { OnOk result (GrowsEvents map.old.events map.new.events) }
    ensures counts { OnOk result (CountsOn map.old map.new (record { side = A; latch = j })) }
    ensures many { result ≡ Err event_error.TooManyEvents → AreNodesOver map.old (record { side = A; latch = j }) }
    ensures large { (side : Side) → result ≡ Err (event_error.TooLarge side) → IsWeightOver map.old (record { side = A; latch = j }) side }
    ensures limit { (latch : Tag) (other : Option Tag) (proof : Proof) → result ≡ Err (event_error.Limit latch other proof) → ⊥ }
    ensures same { map.new ≡ record map.old { events = map.new.events; left_count = map.new.left_count; right_count = map.new.right_count } }
{
    map.left.keeps();
    map.right.keeps();
    map.events.keeps();
    match enable_of(alloc, &map.left, &mut map.events, &mut map.left_count, j) {
        Ok(enable) => Ok(enable),
        Err(error) => {
            map.events.keeps();
            Err(refusal(Side::A, error))
        }
    }
}

/// That of the second circuit's latch.
fn right_enable(alloc: Global, map: &mut ClassMap, j: u32) -> Result<Enable, EventError>
    requires latch { j < length map.old.right.net.latches }
    requires within { IsWithin map.old }
    ensures enable { IfOk result (IsEnableOf map.new.right map.new.events j) }
    ensures ready { IfOk result (IsReadyEnable map.new.events) }
    ensures within { OnOk result (IsWithin map.new) }
    ensures grows { OnOk result (GrowsEvents map.old.events map.new.events) }
    ensures counts { OnOk result (CountsOn map.old map.new (record { side = B; latch = j })) }
    ensures many { result ≡ Err event_error.TooManyEvents → AreNodesOver map.old (record { side = B; latch = j }) }
    ensures large { (side : Side) → result ≡ Err (event_error.TooLarge side) → IsWeightOver map.old (record { side = B; latch = j }) side }
    ensures limit { (latch : Tag) (other : Option Tag) (proof : Proof) → result ≡ Err (event_error.Limit latch other proof) → ⊥ }
    ensures same { map.new ≡ record map.old { events = map.new.events; left_count = map.new.left_count; right_count = map.new.right_count } }
{
    map.left.keeps();
    map.right.keeps();
    map.events.keeps();
    match enable_of(alloc, &map.right, &mut map.events, &mut map.right_count, j) {
        Ok(enable) => Ok(enable),
        Err(error) => {
            map.events.keeps();
            Err(refusal(Side::B, error))
        }
    }
}

/// The refusal of a latch of this circuit.
fn refusal(side: Side, error: EventUnfoldError) -> EventError
    ensures many { result ≡ event_error.TooManyEvents → error ≡ unfold_error.TooManyEvents }
    ensures large { (other : Side) → result ≡ event_error.TooLarge other → (side ≡ other) × (error ≡ unfold_error.TooLarge) }
    ensures limit { (latch : Tag) (other : Option Tag) (proof : Proof) → result ≡ event_error.Limit latch other proof → ⊥ }
{
    match error {
        EventUnfoldError::TooManyEvents => EventError::TooManyEvents,
        EventUnfoldError::TooLarge => EventError::TooLarge(side),
        EventUnfoldError::NoMemory => EventError::NoMemory,
    }
}

/// The enable of the latch with this position.
fn enable_of(
    alloc: Global,
    circuit: &EventCircuit,
    events: &mut EventGraph,
    count: &mut Counter,
    j: u32,
) -> Result<Enable, EventUnfoldError>
    requires latch { j < length circuit.now.net.latches }
    requires weighed { IsWeighed circuit.now.net count.old }
    requires few { length events.old.children < 10000 }
    ensures enable { IfOk result (IsEnableOf circuit.now events.new j) }
    ensures ready { IfOk result (IsReadyEnable events.new) }
    ensures weighed { OnOk result (IsWeighed circuit.now.net count.new) }
    ensures few { OnOk result (length events.new.children < 10000) }
    ensures counted { OnOk result ((l : LatchAt) → slice_get circuit.now.net.latches j ≡ Some l → HasCountedStart circuit.now (enable_start l) events.new.children count.old count.new) }
    ensures counting { (l : LatchAt) → slice_get circuit.now.net.latches j ≡ Some l → IsCounting circuit.now (enable_start l) events.old.children events.new.children count.old count.new }
    ensures refused { (l : LatchAt) → slice_get circuit.now.net.latches j ≡ Some l → IsRefusal circuit.now events.old.children events.new.children (enable_start l) count.old.places result }
    ensures grows { OnOk result (GrowsEvents events.old events.new) }
{
    circuit.keeps();
    let made = unfold_enable(alloc, circuit, events, count, j)?;
    events.keeps();
    let EnableFunction { value, care, vars } = made;
    Ok(Enable { value, care, vars })
}
