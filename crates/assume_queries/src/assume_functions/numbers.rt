//! The numbers that an assumption's variables have at a place.

ghost use Rattle.std.specs.Prelude.{◌≡◌, ℕ, ◌+◌, ◌^◌, ◌<◌, ◌≤◌, map, length, slice_get, Some, slice_index_or, All, IfOk};
ghost use Rattle.aig.specs.Graph.{vars_of};
ghost use Rattle.cbf_unfold.specs.unfold_places.Reach.{Adds};
ghost use Rattle.assume_queries.specs.assume_functions.Functions.{AreNumbersAt};

use crate::assume_functions::own::OwnFunction;
use base_tables::PlaceTable;
use sec_base::{Ids, MAX_WEIGHT, NoMemory, Seq};
use std::alloc::Global;

/// For each variable of the function its number in the table, with this place in place of its own. It is put into the table where
/// it isn't there.
pub(crate) fn numbers_at(
    alloc: Global,
    own: &OwnFunction,
    places: &mut PlaceTable,
    place: u32,
) -> Result<Vec<u32>, NoMemory>
    requires own { length own.now.places ≤ MAX_WEIGHT }
    requires room { length places.old ≤ 2 ^ 29 }
    ensures covers { IfOk result (λ numbers. vars_of own.now.aig ≤ length numbers.items) }
    ensures each { IfOk result (λ numbers. length own.now.places ≤ length numbers.items) }
    ensures numbers { IfOk result (λ numbers. AreNumbersAt own.now.places place places.new numbers.items) }
    ensures small { IfOk result (λ numbers. All (λ v. v + 1 < 2 ^ 32) numbers.items) }
    ensures adds { Adds (λ p. Unit {0}) places.old places.new }
    ensures entries { length places.new ≤ length places.old + length own.now.places }
{
    let size = own.aig.vars().max(own.places.len());
    let mut numbers = Vec::new(alloc);
    for v in 0..size {
        let number = number_at(&own.places, places, v, place)?;
        numbers.push(number)?;
    }
    Ok(numbers)
}

/// The number of the entry that stands at `v` in the table `own`, with this place in place of its own; 0 where none stands there.
fn number_at(own: &PlaceTable, places: &mut PlaceTable, v: u32, place: u32) -> Result<u32, NoMemory>
    requires room { length places.old + 2 < 2 ^ 32 }
    ensures here { IfOk result (λ n. (p : ℕ × ℕ) → slice_get own.now v ≡ Some p → slice_get places.new n ≡ Some (p.0, place)) }
    ensures small { IfOk result (λ n. n + 1 < 2 ^ 32) }
    ensures adds { Adds (λ p. Unit {0}) places.old places.new }
    ensures one { length places.new ≤ length places.old + 1 }
    ensures beyond { length own.now ≤ v → places.new ≡ places.old }
{
    let size = own.len();
    if v >= size {
        return Ok(0);
    }
    let (input, _) = own.pair(v);
    let number = places.intern(input, place)?;
    Ok(number)
}

/// The numbers of these variables.
pub(crate) fn picked(alloc: Global, vars: &[u32], numbers: &[u32]) -> Result<Ids, NoMemory>
    requires { All (λ v. v < length numbers.now) vars.now }
    ensures { IfOk result (λ made. made ≡ map (λ v. slice_index_or numbers.now v 0) vars.now) }
{
    let mut made = Vec::new(alloc);
    for v in vars {
        made.push(numbers[*v as usize])?;
    }
    Ok(Seq::from_vec(made))
}
