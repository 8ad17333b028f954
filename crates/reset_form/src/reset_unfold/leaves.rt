//! The variables of an unfolded signal.

ghost use Rattle.std.specs.Prelude.{◌≡◌, ℕ, ◌+◌, ◌^◌, ◌<◌, length, slice_get, Some, None, All, Contains, IfSome, IfNone, IfOk};
ghost use Rattle.std.specs.List.{AllPairs, AllZip};
ghost use Rattle.flat_net.specs.View.{circuit_of, start_of};
ghost use Rattle.flat_net.specs.declared.parts.Driver.TheVariants as driver;
ghost use Rattle.cbf_unfold.specs.unfold_places.Places.{PlaceBefore};
ghost use Rattle.cbf_unfold.specs.unfold_places.InputOrder.{IsOrderOf};
ghost use Rattle.reset_form.specs.reset_unfold.Places.{IsLeafAt, IsFreeAt};
ghost use Rattle.reset_form.specs.reset_unfold.Reach.{AreLeavesOf};

use base_tables::PlaceTable;
use cbf_unfold::unfold_places::memo::Place;
use flat_net::{Driver, LatchAt, Net, Signal, latch_of};
use sec_base::{Ids, Init, NoMemory, Seq};
use std::alloc::Global;

/// The latch's initial value, where it is 0 or 1.
pub(crate) fn initial(latch: &LatchAt) -> Option<bool>
    ensures here { IfSome result (λ bit. start_of latch.now.out.0 latch.now.init ≡ Some (record { place = latch.now.out.0; bit = bit })) }
    ensures none { IfNone result (start_of latch.now.out.0 latch.now.init ≡ None) }
{
    match latch.init {
        Init::Zero => Some(false),
        Init::One => Some(true),
        Init::DontCare => None,
        Init::Unknown => None,
    }
}

/// The number of the variable that stands for the place, if one does.
fn leaf_number(net: &Net, order: &[u32], base: u32, place: Place) -> Option<u32>
    requires order { IsOrderOf net.now order.now }
    requires room { base + length net.now.latches < 2 ^ 31 }
    requires signal { place.1 < length net.now.drivers }
    ensures here { IfSome result (λ number. IsLeafAt (circuit_of net.now) order.now base place number) }
    ensures none { IfNone result ((number : ℕ) → IsLeafAt (circuit_of net.now) order.now base place number → ⊥) }
{
    net.keeps();
    match net.driver(Signal(place.1)) {
        Driver::Input(i) => Some(order[i as usize]),
        Driver::Gate(_) => None,
        Driver::Latch(j) => free_number(net, base, place, j),
    }
}

/// The number of the variable of the latch that drives the place's signal, where the latch is free in the place's cycle.
fn free_number(net: &Net, base: u32, place: Place, j: u32) -> Option<u32>
    requires drives { slice_get net.now.drivers place.1 ≡ Some (driver.Latch j) }
    requires room { base + length net.now.latches < 2 ^ 31 }
    ensures here { IfSome result (λ number. IsFreeAt (circuit_of net.now) base place number) }
    ensures none { IfNone result ((number : ℕ) → IsFreeAt (circuit_of net.now) base place number → ⊥) }
{
    net.keeps();
    if place.0 > 0 {
        return None;
    }
    match initial(latch_of(net, j)) {
        Some(_) => None,
        None => Some(base + j),
    }
}

/// The leaves among the places, each as its cycle and its variable's number, in order.
pub(crate) fn leaves_of(
    alloc: Global,
    net: &Net,
    order: &[u32],
    base: u32,
    places: &[Place],
) -> Result<Vec<(u32, u32)>, NoMemory>
    requires order { IsOrderOf net.now order.now }
    requires base { All (λ i. i < base) order.now }
    requires room { base + length net.now.latches < 2 ^ 31 }
    requires within { All (λ p. p.1 < length net.now.drivers) places.now }
    requires ordered { AllPairs PlaceBefore places.now }
    ensures leaves { IfOk result (λ found. AreLeavesOf (circuit_of net.now) order.now base places.now found.items) }
    ensures ordered { IfOk result (λ found. AllPairs PlaceBefore found.items) }
{
    net.keeps();
    let mut found = Vec::new(alloc);
    for place in places {
        let Some(number) = leaf_number(net, order, base, *place) else {
            continue;
        };
        found.push((place.0, number))?;
    }
    found.sort()?;
    Ok(found)
}

/// The numbers in the table of these leaves. They are in the table already.
pub(crate) fn numbers_of(
    alloc: Global,
    table: &mut PlaceTable,
    leaves: &[(u32, u32)],
) -> Result<Ids, NoMemory>
    requires room { length table.old + 1 < 2 ^ 32 }
    requires known { All (λ x. Contains table.old (x.1, x.0)) leaves.now }
    ensures same { table.new ≡ table.old }
    ensures numbers { IfOk result (λ vars. AllZip (λ v x. slice_get table.old v ≡ Some (x.1, x.0)) vars leaves.now) }
{
    let mut numbers = Vec::with_capacity(alloc, leaves.len())?;
    for leaf in leaves {
        numbers.push(number_of(table, *leaf)?)?;
    }
    Ok(Seq::from_vec(numbers))
}

/// The number in the table of a leaf, which is in the table already.
fn number_of(table: &mut PlaceTable, leaf: (u32, u32)) -> Result<u32, NoMemory>
    requires room { length table.old + 1 < 2 ^ 32 }
    requires known { Contains table.old (leaf.1, leaf.0) }
    ensures same { table.new ≡ table.old }
    ensures number { IfOk result (λ v. slice_get table.old v ≡ Some (leaf.1, leaf.0)) }
{
    table.intern(leaf.1, leaf.0)
}
