//! Decimal numbers, parted by single blanks.

ghost use Rattle.std.specs.Prelude.{◌≡◌, IfOk, option_map};
ghost use Rattle.aiger_read.specs.aiger_records.Numbers.{is_digit, with_digit, number_of, numbers, numbers_behind, words_left};

use crate::aiger_records::cuts::{FirstWord, first_word};
use sec_base::NoMemory;

/// The number with one digit more; None where the byte is no digit or the number is too great.
fn with_digit(number: u64, byte: u8) -> Option<u64>
    ensures { result ≡ with_digit number byte }
{
    if !byte.is_ascii_digit() {
        return None;
    }
    number.checked_mul(10)?.checked_add(u64::from(byte - b'0'))
}

/// The number that the bytes write; None where they write none, or with a leading zero, or one above 2^64 - 1.
pub fn number_of(bytes: &[u8]) -> Option<u64>
    ensures { result ≡ number_of bytes.now }
{
    if bytes.is_empty() || (bytes.len() > 1 && bytes[0] == b'0') {
        return None;
    }
    let mut number = 0;
    for byte in bytes {
        number = with_digit(number, *byte)?;
    }
    Some(number)
}

/// The numbers so far, and behind them those that the rest of a line writes; None where a word of it is no number.
pub fn numbers_behind(begun: Vec<u64>, rest: Option<&[u8]>) -> Result<Option<Vec<u64>>, NoMemory>
    ensures { IfOk result (λ found. option_map (λ v. v.items) found ≡ numbers_behind begun.items (numbers (words_left rest.entry))) }
{
    let mut numbers = begun;
    let mut left = rest;
    while let Some(words) = left {
        let FirstWord { word, after } = first_word(words);
        let Some(number) = number_of(word) else {
            return Ok(None);
        };
        numbers.push(number)?;
        left = after;
    }
    Ok(Some(numbers))
}
