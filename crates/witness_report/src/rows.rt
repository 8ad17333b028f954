//! Rows of bits as lines.

ghost use Rattle.std.specs.Prelude.{◌≡◌, ◌+◌, ◌^◌, ◌<◌, ℕ, Bool, List, [], ◌∷◌, length, map, All, IfOk, IfSome, IfNone, IsErrOf};
ghost use Rattle.witness_report.specs.Text.{digit_of, row_text};
ghost use Rattle.witness_report.specs.Form.{AreRows, IsNoRow};
ghost use Rattle.witness_report.specs.Parts.{IsBadLine};
ghost use Rattle.witness_report.specs.declared.error.StimError.TheVariants as stim_error;

use crate::error::StimError;
use crate::pieces::Pieces;
use sec_base::{BitRows, Bits, NoMemory, Seq};
use std::alloc::Global;

/// The bit of a digit, or none for another byte.
fn bit_of(byte: u8) -> Option<bool>
    ensures some { IfSome result (λ bit. digit_of bit ≡ byte) }
    ensures none { IfNone result ((bit : Bool) → digit_of bit ≡ byte → ⊥) }
{
    match byte {
        b'0' => Some(false),
        b'1' => Some(true),
        _ => None,
    }
}

/// The row of so many bits that a line spells, or none where it spells none.
fn read_row(alloc: Global, count: usize, line: &[u8]) -> Result<Option<Bits>, NoMemory>
    ensures some { IfOk result (λ found. IfSome found (λ row. (length row ≡ count) × (row_text row ≡ line.now))) }
    ensures none { IfOk result (λ found. IfNone found (IsNoRow count line.now)) }
{
    if count == 0 {
        return Ok(if line == b"-".as_slice() {
            Some(Bits::new(alloc))
        } else {
            None
        });
    }
    if line.len() != count {
        return Ok(None);
    }
    let mut bits = Vec::with_capacity(alloc, count)?;
    for byte in line.iter() {
        let Some(bit) = bit_of(*byte) else {
            return Ok(None);
        };
        bits.push(bit)?;
    }
    Ok(Some(Seq::from_vec(bits)))
}

/// The rows that the lines spell, of which the first has the number 2, or the first that spells none.
pub(crate) fn read_rows(
    alloc: Global,
    count: usize,
    lines: Pieces<'_>,
) -> Result<BitRows, StimError>
    requires { length lines + 2 < 2 ^ 32 }
    ensures ok { IfOk result (λ rows. (map row_text rows ≡ lines.entry) × AreRows count rows) }
    ensures header { (n : ℕ) → IsErrOf result (stim_error.BadHeader n) → ⊥ }
    ensures row { (n : ℕ) → IsErrOf result (stim_error.BadRow n) → IsBadLine count lines.entry n }
{
    let mut left = lines;
    let mut number = 2u32;
    let mut rows = BitRows::new(alloc);
    while let Some(line) = left.next_piece() {
        let Some(row) = read_row(alloc, count, line)? else {
            return Err(StimError::BadRow { line: number });
        };
        rows.push(row)?;
        number += 1;
    }
    Ok(rows)
}
