//! The rows of a sequence, by the bits of inputs at shifts.

ghost use Rattle.std.specs.Prelude.{◌≡◌, ◌≢◌, ℕ, ◌+◌, ◌<◌, ◌≤◌, map, length, false, slice_index_or, All, IfOk};
ghost use Rattle.std.specs.List.{AllPairs};
ghost use Rattle.circuit_theory.specs.Sequence.{sequence_rows};
ghost use Rattle.pair_decide.specs.Queries.{assigned_to};
ghost use Rattle.cbf_unfold.specs.shift_variables.Variables.{variable_of};
ghost use Rattle.cbf_unfold.specs.shift_variables.Sequences.{bits_at, IsSequence, EndsShift};

use crate::unfold_places::{BitRows, Bits, NoMemory, PlaceTable, Seq};
use std::alloc::Global;

/// So many bits: those with these numbers are given, and all others 0.
pub fn bits_at(
    alloc: Global,
    size: usize,
    numbers: &[u32],
    bits: &[bool],
) -> Result<Vec<bool>, NoMemory>
    requires each { length numbers.now ≡ length bits.now }
    requires within { All (λ n. n < size) numbers.now }
    requires distinct { AllPairs (λ m n. m ≢ n) numbers.now }
    ensures size { IfOk result (λ made. length made.items ≡ size) }
    ensures bits { IfOk result (λ made. (n : ℕ) → slice_index_or made.items n false ≡ assigned_to numbers.now bits.now n) }
{
    let mut made = vec![in alloc; false; size]?;
    for k in 0..numbers.len() {
        made[numbers[k] as usize] = bits[k];
    }
    Ok(made)
}

/// The rows of the sequence that ends in the cycle `last`, one for each cycle: the bit of an input at a shift stands so many cycles
/// before the last one, at the input's place among so many, and all else is 0.
pub fn rows_of(
    alloc: Global,
    places: &PlaceTable,
    vars: &[u32],
    bits: &[bool],
    last: u32,
    count: usize,
) -> Result<BitRows, NoMemory>
    requires { IsSequence places.now vars.now bits.now last count }
    ensures { IfOk result (λ rows. rows ≡ sequence_rows last (bits_at places.now vars.now bits.now) count) }
{
    let mut rows = BitRows::new(alloc);
    let mut at = 0;
    for cycle in 0..u64::from(last) + 1 {
        let end = end_of_shift(places, vars, at, last - cycle as u32);
        let row = row_of(alloc, places, &vars[at..end], &bits[at..end], count)?;
        rows.push(row)?;
        at = end;
    }
    Ok(rows)
}

/// Where the variables of this shift end that stand from a place on.
pub fn end_of_shift(places: &PlaceTable, vars: &[u32], from: usize, shift: u32) -> usize
    requires within { All (λ v. v < length places.now) vars.now }
    requires from { from ≤ length vars.now }
    ensures { EndsShift places.now vars.now from shift result }
{
    for k in from..vars.len() {
        let (_, own) = places.pair(vars[k]);
        if own != shift {
            return k;
        }
    }
    vars.len()
}

/// The row of a cycle, whose inputs these variables are.
fn row_of(
    alloc: Global,
    places: &PlaceTable,
    vars: &[u32],
    bits: &[bool],
    count: usize,
) -> Result<Bits, NoMemory>
    requires each { length vars.now ≡ length bits.now }
    requires within { All (λ v. v < length places.now) vars.now }
    requires inputs { All (λ v. (variable_of places.now v).input < count) vars.now }
    requires distinct { AllPairs (λ u v. (variable_of places.now u).input ≢ (variable_of places.now v).input) vars.now }
    ensures size { IfOk result (λ row. length row ≡ count) }
    ensures bits { IfOk result (λ row. (i : ℕ) → slice_index_or row i false ≡ assigned_to (map (λ v. (variable_of places.now v).input) vars.now) bits.now i) }
{
    let inputs = inputs_of(alloc, places, vars)?;
    let row = bits_at(alloc, count, inputs.as_slice(), bits)?;
    Ok(Seq::from_vec(row))
}

fn inputs_of(alloc: Global, places: &PlaceTable, vars: &[u32]) -> Result<Vec<u32>, NoMemory>
    requires { All (λ v. v < length places.now) vars.now }
    ensures { IfOk result (λ inputs. inputs.items ≡ map (λ v. (variable_of places.now v).input) vars.now) }
{
    let mut inputs = Vec::new(alloc);
    for v in vars {
        let (input, _) = places.pair(*v);
        inputs.push(input)?;
    }
    Ok(inputs)
}
