//! Signals as event functions.

ghost use Rattle.std.specs.Prelude.{◌≡◌, ◌^◌, ◌<◌, ◌≤◌, [], length, None, IfOk, OnOk, Err};
ghost use Rattle.event_nodes.specs.declared.error.EventUnfoldError.TheVariants as unfold_error;
ghost use Rattle.event_nodes.specs.Nodes.{GrowsEvents};
ghost use Rattle.event_nodes.specs.Visited.{IsWeighed};
ghost use Rattle.edbf_unfold.specs.event_literals.event_walk.Walk.{HasCountedStart, IsCounting};
ghost use Rattle.edbf_unfold.specs.Care.{IsCareLit};
ghost use Rattle.edbf_unfold.specs.Reached.{IsReachOf};
ghost use Rattle.edbf_unfold.specs.event_literals.Known.{IsKnownAt};
ghost use Rattle.event_classes.specs.event_functions.Functions.{IsFunctionOf, signal_start};
ghost use Rattle.event_classes.specs.event_functions.Refused.{HasFewNodes, IsTooHeavy, IsRefusal};

use crate::event_functions::counting::{count_all, find_room};
use crate::event_functions::refusal::signal_refusal;
use edbf_unfold::{EventFunction, EventUnfolder};
use event_nodes::event_variables::{
    Counter, EventCircuit, EventGraph, EventUnfoldError, Ids, Lit, Signal, visited_variables,
};
use std::alloc::Global;

/// A signal as a function of inputs at event nodes.
#[derive(Drop)]
pub struct SignalFunction {
    /// The value.
    pub value: Lit,
    /// The care: 1 in exactly the frames with care.
    pub care: Lit,
    /// The variables of both: longer paths first, then by path in the order of class numbers, then by input.
    pub vars: Ids,
    /// The event nodes that are reached, by their numbers, in order; the root's, 0, is the first.
    pub nodes: Ids,
    /// Whether each latch that is reached is of class 0.
    pub only_always: bool,
}

/// The signal as an event function, where what it visits is counted too. `TooManyEvents` comes where more than 10,000 event nodes are
/// reached, those of earlier calls among them, and `TooLarge` where all that is counted weighs more than 2,000,000 and no more nodes are
/// reached. `NoMemory` comes also where the event graph might get 2^30 nodes.
pub fn unfold_signal(
    alloc: Global,
    circuit: &EventCircuit,
    events: &mut EventGraph,
    total: &mut Counter,
    s: Signal,
) -> Result<SignalFunction, EventUnfoldError>
    requires signal { s.0 < length circuit.now.net.drivers }
    requires weighed { IsWeighed circuit.now.net total.old }
    requires few { length events.old.children < 10000 }
    ensures function { IfOk result (IsFunctionOf circuit.now events.new s.0) }
    ensures counted { OnOk result (HasCountedStart circuit.now (signal_start s.0) events.new.children total.old total.new) }
    ensures counting { IsCounting circuit.now (signal_start s.0) events.old.children events.new.children total.old total.new }
    ensures refused { IsRefusal circuit.now events.old.children events.new.children (signal_start s.0) total.old.places result }
    ensures grows { GrowsEvents events.old events.new }
{
    circuit.keeps();
    let mut visits = Counter::new(alloc);
    let made = visit_signal(alloc, circuit, events, &mut visits, s)?;
    events.keeps();
    count_all(circuit.net(), total, &visits)?;
    let vars = visited_variables(alloc, circuit, events, &visits)?;
    events.keeps();
    Ok(SignalFunction {
        value: made.value,
        care: made.care,
        vars,
        nodes: made.nodes,
        only_always: made.only_always,
    })
}

/// The signal as an event function, and what it visits.
fn visit_signal(
    alloc: Global,
    circuit: &EventCircuit,
    events: &mut EventGraph,
    visits: &mut Counter,
    s: Signal,
) -> Result<EventFunction, EventUnfoldError>
    requires signal { s.0 < length circuit.now.net.drivers }
    requires none { visits.old ≡ record { places = []; weight = 0 } }
    requires few { length events.old.children < 10000 }
    ensures here { IfOk result (λ r. IsKnownAt circuit.now events.new None s.0 [] r.value.0 × IsCareLit circuit.now events.new (signal_start s.0) r.care.0) }
    ensures reach { IfOk result (λ r. IsReachOf circuit.now events.new.children (signal_start s.0) r.nodes r.only_always) }
    ensures counted { OnOk result (HasCountedStart circuit.now (signal_start s.0) events.new.children visits.old visits.new) }
    ensures counting { IsCounting circuit.now (signal_start s.0) events.old.children events.new.children visits.old visits.new }
    ensures many { result ≡ Err unfold_error.TooManyEvents → 10000 ≤ length events.new.children }
    ensures large { result ≡ Err unfold_error.TooLarge → IsTooHeavy circuit.now (signal_start s.0) × HasFewNodes circuit.now events.new.children (signal_start s.0) }
    ensures grows { GrowsEvents events.old events.new }
    ensures places { OnOk result (length events.new.places < 2 ^ 31) }
{
    circuit.keeps();
    find_room(events)?;
    let mut unfolder = EventUnfolder::new(alloc, circuit);
    match unfolder.unfold(alloc, events, visits, s) {
        Ok(made) => Ok(made),
        Err(error) => Err(signal_refusal(alloc, circuit, events, visits, s, error)),
    }
}
