//! A sequence that begins with the rows of a stimulus, and whether it makes a pair differ whatever the circuits power up with.

ghost use Rattle.std.specs.Prelude.{◌≡◌, ◌+◌, ◌++◌, ℕ, Bool, Some, length, slice_get, IfOk, OnOk, IfSome};
ghost use Rattle.restart.specs.Sequence.{IsRowUnder, AreRowsUnder, BeginsWithRows, IsShownBehind, StandBehind, GoesOnAs};

use crate::three_run::known_output;
use base_tables::NameTable;
use flat_net::Net;
use sec_base::{BitRows, Bits, NoMemory, Word, Words};
use sec_setup::ports::name_tables::table_of_names;
use std::alloc::Global;
use witness_report::{PairName, Stimulus, Witness};

/// The bit under the name in a row of the stimulus with this header, and 0 where there is none.
fn bit_of(header: &NameTable, row: &[bool], name: &[u8]) -> bool
    ensures { (i : ℕ) (bit : Bool) → slice_get header.now i ≡ Some name.now → slice_get row.now i ≡ Some bit → result ≡ bit }
{
    header.keeps();
    match header.find(name) {
        Some(column) => row.get(column as usize).copied().unwrap_or(false),
        None => false,
    }
}

/// The row's bits under these names.
fn bits_of(alloc: Global, header: &NameTable, row: &[bool], names: &Words) -> Result<Bits, NoMemory>
    ensures size { IfOk result (λ bits. length bits ≡ length names.now) }
    ensures each { IfOk result (λ bits. IsRowUnder header.now row.now names.now bits) }
{
    let mut bits = Bits::new(alloc);
    for name in names.as_slice() {
        bits.push(bit_of(header, row, name.as_slice()))?;
    }
    Ok(bits)
}

/// The rows' bits under these names.
fn rows_under(
    alloc: Global,
    header: &NameTable,
    rows: &[Bits],
    names: &Words,
) -> Result<BitRows, NoMemory>
    ensures { IfOk result (λ made. AreRowsUnder header.now rows.now names.now made) }
{
    let mut made = BitRows::new(alloc);
    for row in rows {
        made.push(bits_of(alloc, header, row.as_slice(), names)?)?;
    }
    Ok(made)
}

/// Puts these rows behind the others.
fn put_rows(made: &mut BitRows, rows: &[Bits]) -> Result<(), NoMemory>
    ensures { OnOk result (made.new ≡ made.old ++ rows.now) }
{
    for row in rows {
        made.push(row.copy()?)?;
    }
    Ok(())
}

/// The rows of the stimulus with this header under the names of the sequence, and then the rows of the sequence.
fn joined(
    alloc: Global,
    header: &NameTable,
    rows: &[Bits],
    sequence: &Stimulus,
) -> Result<Stimulus, NoMemory>
    ensures names { IfOk result (λ made. made.names ≡ sequence.now.names) }
    ensures rows { IfOk result (λ made. BeginsWithRows header.now rows.now made) }
    ensures behind { IfOk result (λ made. StandBehind (length rows.now) sequence.now.rows made.rows) }
    ensures size { IfOk result (λ made. length made.rows ≡ length rows.now + length sequence.now.rows) }
{
    let names = sequence.names.copy()?;
    let mut made = rows_under(alloc, header, rows, &names)?;
    put_rows(&mut made, sequence.rows.as_slice())?;
    Ok(Stimulus { names, rows: made })
}

/// The difference of the outputs of this name that the sequence shows behind the rows of the stimulus with this header, if in its last cycle
/// both are known, whatever the circuits power up with, and differ. The difference's sequence has the rows, and then the sequence.
pub fn shown_behind(
    alloc: Global,
    a: &Net,
    b: &Net,
    header: &NameTable,
    rows: &[Bits],
    name: &Word,
    sequence: &Stimulus,
) -> Result<Option<Witness>, NoMemory>
    ensures shown { IfOk result (λ shown. IfSome shown (IsShownBehind a.now b.now header.now rows.now)) }
    ensures goes_on { IfOk result (λ shown. IfSome shown (GoesOnAs (length rows.now) sequence.now)) }
{
    if sequence.rows.len() == 0 {
        return Ok(None);
    }
    let stimulus = joined(alloc, header, rows, sequence)?;
    let Ok(count) = u32::try_from(stimulus.rows.len()) else {
        return Ok(None);
    };
    let names = table_of_names(alloc, &stimulus.names)?;
    let left = known_output(alloc, a, &names, stimulus.rows.as_slice(), name.as_slice())?;
    let right = known_output(alloc, b, &names, stimulus.rows.as_slice(), name.as_slice())?;
    let (Some(left), Some(right)) = (left, right) else {
        return Ok(None);
    };
    if left == right {
        return Ok(None);
    }
    let pair = PairName::Output(name.copy()?);
    Ok(Some(Witness {
        pair,
        cycle: count - 1,
        left,
        right,
        stimulus,
    }))
}
