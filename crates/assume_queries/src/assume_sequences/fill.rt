//! Rows in which a meeting row stands wherever no variable has the place.

ghost use Rattle.std.specs.Prelude.{◌≡◌, ◌==◌, ◌||◌, ℕ, ◌<◌, Bool, [], false, length, slice_index_or, All, IfOk};
ghost use Rattle.circuit_theory.specs.Query.{same_shift};
ghost use Rattle.circuit_theory.specs.Sequence.{sequence_rows};
ghost use Rattle.circuit_laws.specs.reset_laws.Reset.{reset_rows};
ghost use Rattle.cbf_unfold.specs.shift_variables.Variables.{variables_of};
ghost use Rattle.assume_laws.specs.Sequences.{filled};
ghost use Rattle.assume_queries.specs.assume_sequences.Filled.{bit_of, has_place, row_or};

use base_tables::PlaceTable;
use sec_base::{BitRows, Bits, NoMemory};
use std::alloc::Global;

/// The rows of a sequence, where each cycle at whose shift none of these variables stands has the meeting row.
pub fn fill_shifts(
    alloc: Global,
    rows: &BitRows,
    table: &PlaceTable,
    sides: &[u32],
    meeting: &Bits,
) -> Result<BitRows, NoMemory>
    requires { All (λ v. v < length table.now) sides.now }
    ensures { IfOk result (λ made. (last : ℕ) (x : ℕ → ℕ → Bool) → rows.now ≡ sequence_rows last x (length meeting.now) → made ≡ sequence_rows last (filled same_shift (variables_of table.now sides.now) (bit_of meeting.now) x) (length meeting.now)) }
{
    let size = rows.len();
    let met = places_met(alloc, table, sides, size)?;
    let mut made = BitRows::new(alloc);
    for cycle in 0..size {
        let row = row_in(rows, cycle, met[size - 1 - cycle], meeting)?;
        made.push(row)?;
    }
    Ok(made)
}

/// The rows of the cycles from 0 on, where each cycle in which none of these variables stands has the meeting row.
pub fn fill_cycles(
    alloc: Global,
    rows: &BitRows,
    table: &PlaceTable,
    sides: &[u32],
    meeting: &Bits,
) -> Result<BitRows, NoMemory>
    requires { All (λ v. v < length table.now) sides.now }
    ensures { IfOk result (λ made. (last : ℕ) (x : ℕ → ℕ → Bool) → rows.now ≡ reset_rows last x (length meeting.now) → made ≡ reset_rows last (filled same_shift (variables_of table.now sides.now) (bit_of meeting.now) x) (length meeting.now)) }
{
    let size = rows.len();
    let met = places_met(alloc, table, sides, size)?;
    let mut made = BitRows::new(alloc);
    for cycle in 0..size {
        let row = row_in(rows, cycle, met[cycle], meeting)?;
        made.push(row)?;
    }
    Ok(made)
}

/// The row of a cycle where it stays, and else the meeting row.
fn row_in(rows: &BitRows, cycle: usize, stays: bool, meeting: &Bits) -> Result<Bits, NoMemory>
    requires { cycle < length rows.now }
    ensures { IfOk result (λ row. row ≡ row_or stays (slice_index_or rows.now cycle []) meeting.now) }
{
    if stays {
        rows.as_slice()[cycle].copy()
    } else {
        meeting.copy()
    }
}

/// For each place below a number, whether one of these variables has it.
fn places_met(
    alloc: Global,
    table: &PlaceTable,
    vars: &[u32],
    size: usize,
) -> Result<Vec<bool>, NoMemory>
    requires { All (λ v. v < length table.now) vars.now }
    ensures size { IfOk result (λ met. length met.items ≡ size) }
    ensures met { IfOk result (λ met. (k : ℕ) → k < size → slice_index_or met.items k false ≡ has_place table.now vars.now k) }
{
    let mut met = vec![in alloc; false; size]?;
    for v in vars {
        let (_, place) = table.pair(*v);
        mark(&mut met, place as usize);
    }
    Ok(met)
}

/// Marks the place, if it is one of those that are told.
fn mark(met: &mut Vec<bool>, place: usize)
    ensures size { length met.new.items ≡ length met.old.items }
    ensures marked { (k : ℕ) → k < length met.old.items → slice_index_or met.new.items k false ≡ (slice_index_or met.old.items k false || (place == k)) }
{
    if place < met.len() {
        met[place] = true;
    }
}
