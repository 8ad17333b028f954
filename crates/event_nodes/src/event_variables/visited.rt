//! The variables of the inputs that were visited.

ghost use Rattle.std.specs.Prelude.{◌≡◌, ◌+◌, ◌^◌, ◌<◌, ◌≤◌, length, All, IfOk, OnOk};
ghost use Rattle.event_nodes.specs.Nodes.{GrowsEvents};
ghost use Rattle.event_nodes.specs.event_variables.Inputs.{IsVariablePut, AreInputsOf};

use crate::event_variables::ordering::in_order;
use crate::{Counter, Driver, EventCircuit, EventGraph, Ids, NoMemory, Place, Signal};
use std::alloc::Global;

/// The variables of the inputs among the places that were visited, each once: longer paths first, then by path in the order of class
/// numbers, then by input. After `NoMemory` variables may have been added.
pub fn visited_variables(
    alloc: Global,
    circuit: &EventCircuit,
    events: &mut EventGraph,
    visits: &Counter,
) -> Result<Ids, NoMemory>
    requires nodes { All (λ p. p.0 ≤ length events.old.children) visits.now.places }
    requires signals { All (λ p. p.1 < length circuit.now.net.drivers) visits.now.places }
    requires room { length events.old.places + length visits.now.places + 1 < 2 ^ 32 }
    ensures variables { IfOk result (AreInputsOf circuit.now events.new visits.now.places) }
    ensures grows { GrowsEvents events.old events.new }
    ensures few { length events.new.places ≤ length events.old.places + length visits.now.places }
    ensures same { events.new ≡ record events.old { places = events.new.places } }
{
    let mut found = Vec::new(alloc);
    for number in 0..visits.len() {
        put_variable(circuit, events, &mut found, visits.place(number))?;
    }
    in_order(alloc, events, found)
}

/// Puts the variable of the place behind the others, if the place's signal is an input.
fn put_variable(
    circuit: &EventCircuit,
    events: &mut EventGraph,
    found: &mut Vec<u32>,
    place: Place,
) -> Result<(), NoMemory>
    requires node { place.0 ≤ length events.old.children }
    requires signal { place.1 < length circuit.now.net.drivers }
    requires room { length events.old.places + 1 < 2 ^ 32 }
    ensures put { OnOk result (IsVariablePut circuit.now events.new place found.old.items found.new.items) }
    ensures grows { GrowsEvents events.old events.new }
    ensures few { length events.new.places ≤ length events.old.places + 1 }
    ensures same { events.new ≡ record events.old { places = events.new.places } }
{
    circuit.keeps();
    match circuit.net().driver(Signal(place.1)) {
        Driver::Input(i) => {
            let input = circuit.number(i);
            let variable = events.number(input, place.0)?;
            found.push(variable)?;
            Ok(())
        }
        _ => Ok(()),
    }
}
