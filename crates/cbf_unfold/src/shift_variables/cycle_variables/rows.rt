//! The rows of a sequence, by the bits of inputs in cycles.

ghost use Rattle.std.specs.Prelude.{◌≡◌, ◌≢◌, ℕ, ◌+◌, ◌<◌, map, length, false, slice_index_or, All, IfOk};
ghost use Rattle.std.specs.List.{AllPairs};
ghost use Rattle.pair_decide.specs.Queries.{assigned_to};
ghost use Rattle.circuit_laws.specs.reset_laws.Reset.{reset_rows};
ghost use Rattle.cbf_unfold.specs.shift_variables.Sequences.{bits_at};
ghost use Rattle.cbf_unfold.specs.shift_variables.cycle_variables.Cycles.{AreInCycles, number_of};

use crate::shift_variables::end_of_shift;
use base_tables::PlaceTable;
use sec_base::{BitRows, Bits, NoMemory, Seq};
use std::alloc::Global;

/// The rows of the sequence of the cycles 0 to `last`: each input has in a cycle the bit of its variable there, at its place among
/// so many inputs, and 0 without one. Variables with numbers above the inputs' are those of latches, and stand in no row.
pub fn cycle_rows(
    alloc: Global,
    places: &PlaceTable,
    vars: &[u32],
    bits: &[bool],
    last: u32,
    count: usize,
) -> Result<BitRows, NoMemory>
    requires each { length bits.now ≡ length vars.now }
    requires in_order { AreInCycles places.now vars.now }
    ensures { IfOk result (λ rows. rows ≡ reset_rows last (bits_at places.now vars.now bits.now) count) }
{
    let mut rows = BitRows::new(alloc);
    let mut at = 0;
    for cycle in 0..u64::from(last) + 1 {
        let end = end_of_shift(places, vars, at, cycle as u32);
        let row = bits_from(alloc, places, &vars[at..end], &bits[at..end], 0, count)?;
        rows.push(Seq::from_vec(row))?;
        at = end;
    }
    Ok(rows)
}

/// The bits of so many variables of one cycle, by their numbers from one on: 0 for those that don't stand among these.
pub(crate) fn bits_from(
    alloc: Global,
    places: &PlaceTable,
    vars: &[u32],
    bits: &[bool],
    from: u32,
    count: usize,
) -> Result<Vec<bool>, NoMemory>
    requires each { length vars.now ≡ length bits.now }
    requires within { All (λ v. v < length places.now) vars.now }
    requires distinct { AllPairs (λ u v. number_of places.now u ≢ number_of places.now v) vars.now }
    ensures size { IfOk result (λ made. length made.items ≡ count) }
    ensures bits { IfOk result (λ made. (i : ℕ) → i < count → slice_index_or made.items i false ≡ assigned_to (map (number_of places.now) vars.now) bits.now (from + i)) }
{
    let mut made = vec![in alloc; false; count]?;
    for k in 0..vars.len() {
        let (number, _) = places.pair(vars[k]);
        put_bit(&mut made, number, from, bits[k]);
    }
    Ok(made)
}

/// Puts the bit of a variable at its place among those with numbers from one on, if it is one of them.
fn put_bit(made: &mut Vec<bool>, number: u32, from: u32, bit: bool)
    ensures size { length made.new.items ≡ length made.old.items }
    ensures here { (i : ℕ) → i < length made.old.items → number ≡ from + i → slice_index_or made.new.items i false ≡ bit }
    ensures others { (i : ℕ) → i < length made.old.items → number ≢ from + i → slice_index_or made.new.items i false ≡ slice_index_or made.old.items i false }
{
    if number < from {
        return;
    }
    let at = (number - from) as usize;
    if at < made.len() {
        made[at] = bit;
    }
}
