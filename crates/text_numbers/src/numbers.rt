//! Whole numbers as tokens spell them.

ghost use Rattle.std.specs.Prelude.{◌≡◌, true, false, IfOk, MatchOption};
ghost use Rattle.std.specs.List.{before_first, after_first};
ghost use Rattle.text_numbers.specs.Numbers.{size_of, number_of, numbers_of, is_zero, has_zero, IsRead};

use crate::tokens::{Tokens, begins_with};
use sec_base::NoMemory;

/// A whole number of at most 9,223,372,036,854,775,807 in size.
#[derive(Clone, Copy)]
pub struct Number {
    /// The number without its sign.
    pub size: u64,
    /// Whether it is below 0.
    pub is_negative: bool,
}

/// The greatest size of a number.
pub const MAX_SIZE: u64 = 9_223_372_036_854_775_807;

/// The number that decimal digits spell, if there are some, they are nothing but digits, and the number isn't too great.
fn size_of(digits: &[u8]) -> Option<u64>
    ensures { result ≡ size_of digits.now }
{
    if digits.len() == 0 {
        return None;
    }
    let mut size: u64 = 0;
    for byte in digits {
        if !byte.is_ascii_digit() {
            return None;
        }
        let digit = (*byte - b'0') as u64;
        if (MAX_SIZE - digit) / 10 < size {
            return None;
        }
        size = 10 * size + digit;
    }
    Some(size)
}

/// The number of a token, or none where the token is no number: decimal digits, behind a `-` where it is below 0. Leading zeros
/// have no effect, and `-0` is no number.
pub fn number_of(token: &[u8]) -> Option<Number>
    ensures { result ≡ number_of token.now }
{
    if begins_with(b'-', token) {
        return negative(size_of(&token[1..]));
    }
    match size_of(token) {
        Some(size) => Some(Number {
            size,
            is_negative: false,
        }),
        None => None,
    }
}

/// The number below 0 of this size.
fn negative(size: Option<u64>) -> Option<Number>
    ensures { result ≡ Rattle.text_numbers.specs.Numbers.negative size }
{
    match size {
        Some(size) => {
            if size == 0 {
                return None;
            }
            Some(Number {
                size,
                is_negative: true,
            })
        }
        None => None,
    }
}

/// Puts the numbers of all tokens behind those that were there; false, with some of them there, where a token is no number.
pub fn read_numbers(tokens: Tokens<'_>, numbers: &mut Vec<Number>) -> Result<bool, NoMemory>
    ensures { IfOk result (λ all. IsRead (numbers_of tokens.entry) all numbers.old.items numbers.new.items) }
{
    let mut left = tokens;
    while let Some(token) = left.next_token() {
        match number_of(token) {
            Some(number) => numbers.push(number)?,
            None => return Ok(false),
        }
    }
    Ok(true)
}

/// Numbers on both sides of a 0.
#[derive(Drop)]
pub struct Halves<'a> {
    pub before: &'a [Number],
    pub after: &'a [Number],
}

/// What stands before the first 0 and what stands after it, or none where there is no 0.
pub fn split_at_zero(numbers: &[Number]) -> Option<Halves<'_>>
    ensures { MatchOption result (has_zero numbers.now ≡ false) (λ halves. (has_zero numbers.now ≡ true) × (halves.before.now ≡ before_first is_zero numbers.now) × (halves.after.now ≡ after_first is_zero numbers.now)) }
{
    for (place, number) in numbers.iter().enumerate() {
        if is_zero(*number) {
            return Some(Halves {
                before: &numbers[..place],
                after: &numbers[place + 1..],
            });
        }
    }
    None
}

/// Whether the number is 0.
pub fn is_zero(number: Number) -> bool
    ensures { result ≡ is_zero number }
{
    number.size == 0
}
