//! The variables of an unfolded signal.

ghost use Rattle.std.specs.Prelude.{◌≡◌, ◌≢◌, ℕ, ◌+◌, ◌-◌, ◌^◌, ◌<◌, ◌≤◌, length, slice_get, Some, All, Contains, IfSome, IfNone, IfOk, OnOk};
ghost use Rattle.std.specs.List.{AllPairs, AllZip};
ghost use Rattle.circuit_theory.specs.Tree.{IsInputNumber};
ghost use Rattle.flat_net.specs.View.{circuit_of};
ghost use Rattle.cbf_unfold.specs.unfold_places.Places.{PlaceBefore};
ghost use Rattle.cbf_unfold.specs.unfold_places.Reach.{AreInputsOf};
ghost use Rattle.cbf_unfold.specs.unfold_places.InputOrder.{IsOrderOf};

use crate::unfold_places::memo::Place;
use flat_net::{Driver, Ids, Net, NoMemory, PlaceTable, Seq, Signal};
use std::alloc::Global;

/// The number of the input that drives the signal, if one does.
pub(crate) fn input_number(net: &Net, order: &[u32], s: Signal) -> Option<u32>
    requires order { IsOrderOf net.now order.now }
    requires signal { s.0 < length net.now.drivers }
    ensures here { IfSome result (λ number. IsInputNumber (circuit_of net.now) order.now s.0 number) }
    ensures none { IfNone result ((number : ℕ) → IsInputNumber (circuit_of net.now) order.now s.0 number → ⊥) }
{
    net.keeps();
    match net.driver(s) {
        Driver::Input(i) => Some(order[i as usize]),
        Driver::Gate(_) => None,
        Driver::Latch(_) => None,
    }
}

/// The inputs among the places, each as its cycle and its number, in order.
pub fn inputs_of(
    alloc: Global,
    net: &Net,
    order: &[u32],
    places: &[Place],
) -> Result<Vec<(u32, u32)>, NoMemory>
    requires order { IsOrderOf net.now order.now }
    requires within { All (λ p. p.1 < length net.now.drivers) places.now }
    requires differ { AllPairs (λ p q. p ≢ q) places.now }
    ensures inputs { IfOk result (λ found. AreInputsOf (circuit_of net.now) order.now places.now found.items) }
    ensures ordered { IfOk result (λ found. AllPairs PlaceBefore found.items) }
{
    net.keeps();
    let mut found = Vec::new(alloc);
    for place in places {
        let Some(number) = input_number(net, order, Signal(place.1)) else {
            continue;
        };
        found.push((place.0, number))?;
    }
    found.sort()?;
    Ok(found)
}

/// The numbers in the table of these inputs at cycles up to `last`. They are in the table already.
pub fn numbers_of(
    alloc: Global,
    table: &mut PlaceTable,
    last: u32,
    inputs: &[(u32, u32)],
) -> Result<Ids, NoMemory>
    requires room { length table.old + 1 < 2 ^ 32 }
    requires cycles { All (λ x. x.0 ≤ last) inputs.now }
    requires known { All (λ x. Contains table.old (x.1, last - x.0)) inputs.now }
    ensures same { table.new ≡ table.old }
    ensures numbers { IfOk result (λ vars. AllZip (λ v x. slice_get table.old v ≡ Some (x.1, last - x.0)) vars inputs.now) }
{
    let mut numbers = Vec::with_capacity(alloc, inputs.len())?;
    for input in inputs {
        numbers.push(number_of(table, last, *input)?)?;
    }
    Ok(Seq::from_vec(numbers))
}

/// The number in the table of an input at a cycle, which is in the table already.
fn number_of(table: &mut PlaceTable, last: u32, input: (u32, u32)) -> Result<u32, NoMemory>
    requires room { length table.old + 1 < 2 ^ 32 }
    requires cycle { input.0 ≤ last }
    requires known { Contains table.old (input.1, last - input.0) }
    ensures same { table.new ≡ table.old }
    ensures number { IfOk result (λ v. slice_get table.old v ≡ Some (input.1, last - input.0)) }
{
    table.intern(input.1, last - input.0)
}
