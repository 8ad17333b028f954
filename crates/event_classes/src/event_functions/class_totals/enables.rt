//! Load enables as event functions.

ghost use Rattle.std.specs.Prelude.{◌≡◌, ◌^◌, ◌<◌, ◌≤◌, [], length, slice_get, Some, IfOk, OnOk, Err};
ghost use Rattle.event_nodes.specs.event_variables.flat_net.LatchAt.{LatchAt};
ghost use Rattle.event_nodes.specs.declared.error.EventUnfoldError.TheVariants as unfold_error;
ghost use Rattle.event_nodes.specs.Nodes.{GrowsEvents};
ghost use Rattle.event_nodes.specs.Visited.{IsWeighed};
ghost use Rattle.edbf_unfold.specs.event_literals.event_walk.Walk.{HasCountedStart, IsCounting, enable_start};
ghost use Rattle.edbf_unfold.specs.Care.{IsCareLit};
ghost use Rattle.edbf_unfold.specs.event_literals.Known.{IsEnableLit};
ghost use Rattle.event_classes.specs.event_functions.class_totals.EnableFunctions.{IsEnableFunctionOf};
ghost use Rattle.event_classes.specs.event_functions.Refused.{HasFewNodes, IsTooHeavy, IsRefusal};

use crate::event_functions::class_totals::enable_refusal::enable_refusal;
use crate::event_functions::counting::{count_all, find_room};
use edbf_unfold::{EventLits, EventUnfolder};
use event_nodes::event_variables::{
    Counter, EventCircuit, EventGraph, EventUnfoldError, Ids, Lit, visited_variables,
};
use std::alloc::Global;

/// The load enable of a latch, at the root, as a function of inputs at event nodes.
#[derive(Drop)]
pub struct EnableFunction {
    /// The value.
    pub value: Lit,
    /// The care: 1 in exactly the frames with care.
    pub care: Lit,
    /// The variables of both: longer paths first, then by path in the order of class numbers, then by input.
    pub vars: Ids,
}

/// The enable of the latch with this position as an event function, where what it visits is counted too. `TooManyEvents` comes where more than
/// 10,000 event nodes are reached, and else `TooLarge` where all that was counted then weighs more than 2,000,000.
pub fn unfold_enable(
    alloc: Global,
    circuit: &EventCircuit,
    events: &mut EventGraph,
    total: &mut Counter,
    j: u32,
) -> Result<EnableFunction, EventUnfoldError>
    requires latch { j < length circuit.now.net.latches }
    requires weighed { IsWeighed circuit.now.net total.old }
    requires few { length events.old.children < 10000 }
    ensures function { IfOk result (λ r. (l : LatchAt) → slice_get circuit.now.net.latches j ≡ Some l → IsEnableFunctionOf circuit.now events.new l r) }
    ensures counted { OnOk result ((l : LatchAt) → slice_get circuit.now.net.latches j ≡ Some l → HasCountedStart circuit.now (enable_start l) events.new.children total.old total.new) }
    ensures counting { (l : LatchAt) → slice_get circuit.now.net.latches j ≡ Some l → IsCounting circuit.now (enable_start l) events.old.children events.new.children total.old total.new }
    ensures refused { (l : LatchAt) → slice_get circuit.now.net.latches j ≡ Some l → IsRefusal circuit.now events.old.children events.new.children (enable_start l) total.old.places result }
    ensures grows { GrowsEvents events.old events.new }
{
    circuit.keeps();
    let mut visits = Counter::new(alloc);
    let made = visit_enable(alloc, circuit, events, &mut visits, j)?;
    events.keeps();
    count_all(circuit.net(), total, &visits)?;
    let vars = visited_variables(alloc, circuit, events, &visits)?;
    events.keeps();
    Ok(EnableFunction {
        value: made.value,
        care: made.care,
        vars,
    })
}

/// The enable as an event function, and what it visits.
fn visit_enable(
    alloc: Global,
    circuit: &EventCircuit,
    events: &mut EventGraph,
    visits: &mut Counter,
    j: u32,
) -> Result<EventLits, EventUnfoldError>
    requires latch { j < length circuit.now.net.latches }
    requires none { visits.old ≡ record { places = []; weight = 0 } }
    requires few { length events.old.children < 10000 }
    ensures here { IfOk result (λ r. (l : LatchAt) → slice_get circuit.now.net.latches j ≡ Some l → IsEnableLit circuit.now events.new [] l r.value.0 × IsCareLit circuit.now events.new (enable_start l) r.care.0) }
    ensures counted { OnOk result ((l : LatchAt) → slice_get circuit.now.net.latches j ≡ Some l → HasCountedStart circuit.now (enable_start l) events.new.children visits.old visits.new) }
    ensures counting { (l : LatchAt) → slice_get circuit.now.net.latches j ≡ Some l → IsCounting circuit.now (enable_start l) events.old.children events.new.children visits.old visits.new }
    ensures many { result ≡ Err unfold_error.TooManyEvents → 10000 ≤ length events.new.children }
    ensures large { result ≡ Err unfold_error.TooLarge → (l : LatchAt) → slice_get circuit.now.net.latches j ≡ Some l → IsTooHeavy circuit.now (enable_start l) × HasFewNodes circuit.now events.new.children (enable_start l) }
    ensures grows { GrowsEvents events.old events.new }
    ensures places { OnOk result (length events.new.places < 2 ^ 31) }
{
    circuit.keeps();
    find_room(events)?;
    let mut unfolder = EventUnfolder::new(alloc, circuit);
    match unfolder.enable(alloc, events, visits, j) {
        Ok(made) => Ok(made),
        Err(error) => Err(enable_refusal(alloc, circuit, events, visits, j, error)),
    }
}
