//! Additions and deletions out of the numbers of a line.

ghost use Rattle.std.specs.Prelude.{◌≡◌, ◌≤◌, ◌^◌, ◌++◌, map, ℕ, false, IfOk, OnOk, MatchOption};
ghost use Rattle.lrat_core.specs.lrat_text.Spellings.{hint_of, id_of, is_addition, addition_of, deletion_of};
ghost use Rattle.lrat_core.specs.lrat_text.Parts.{ArePartsOf, IsAddition, IsDeletion};

use crate::Hint;
use crate::dimacs_text::put_literals;
use proof_check::Literal;
use sec_base::NoMemory;
use text_numbers::{Number, split_at_zero};

/// The literals and the hints of an addition.
#[derive(Drop)]
struct AdditionParts<'a> {
    literals: &'a [Number],
    hints: &'a [Number],
}

/// The parts of an addition behind its number, or none where the two zeros don't stand there.
fn parts_of(numbers: &[Number]) -> Option<AdditionParts<'_>>
    ensures { MatchOption result ((limit : ℕ) → is_addition limit numbers.now ≡ false) (λ parts. ArePartsOf numbers.now parts.literals.now parts.hints.now) }
{
    let Some(first) = split_at_zero(numbers) else {
        return None;
    };
    let Some(second) = split_at_zero(first.after) else {
        return None;
    };
    if second.after.len() > 0 {
        return None;
    }
    Some(AdditionParts {
        literals: first.before,
        hints: second.before,
    })
}

fn hint_of(number: Number) -> Hint
    ensures { result ≡ hint_of number }
{
    if number.is_negative {
        Hint::Negative(number.size)
    } else {
        Hint::Clause(number.size)
    }
}

/// The number of a clause. One below 0 is put as 0, which no clause has.
fn id_of(number: Number) -> u64
    ensures { result ≡ id_of number }
{
    if number.is_negative { 0 } else { number.size }
}

/// Puts the hints behind those that were there.
fn put_hints(numbers: &[Number], hints: &mut Vec<Hint>) -> Result<(), NoMemory>
    ensures { OnOk result (hints.new.items ≡ hints.old.items ++ map hint_of numbers.now) }
{
    for number in numbers {
        hints.push(hint_of(*number))?;
    }
    Ok(())
}

/// Puts the numbers of clauses behind those that were there.
fn put_ids(numbers: &[Number], ids: &mut Vec<u64>) -> Result<(), NoMemory>
    ensures { OnOk result (ids.new.items ≡ ids.old.items ++ map id_of numbers.now) }
{
    for number in numbers {
        ids.push(id_of(*number))?;
    }
    Ok(())
}

/// Puts the literals and the hints of an addition into the buffers, and tells its number; none where the numbers are no addition.
pub(crate) fn read_addition(
    limit: u32,
    numbers: &[Number],
    literals: &mut Vec<Literal>,
    hints: &mut Vec<Hint>,
) -> Result<Option<u64>, NoMemory>
    requires { limit ≤ 2 ^ 30 }
    ensures { IfOk result (λ found. IsAddition (addition_of limit numbers.now) found literals.new.items hints.new.items) }
{
    literals.clear();
    hints.clear();
    if numbers.len() == 0 {
        return Ok(None);
    }
    let id = numbers[0];
    let Some(parts) = parts_of(&numbers[1..]) else {
        return Ok(None);
    };
    if !put_literals(limit, parts.literals, literals)? {
        return Ok(None);
    }
    put_hints(parts.hints, hints)?;
    Ok(Some(id_of(id)))
}

/// Puts the numbers of a deletion into the buffer; false where the numbers are no deletion.
pub(crate) fn read_deletion(numbers: &[Number], ids: &mut Vec<u64>) -> Result<bool, NoMemory>
    ensures { IfOk result (λ found. IsDeletion (deletion_of numbers.now) found ids.new.items) }
{
    ids.clear();
    if numbers.len() == 0 {
        return Ok(false);
    }
    let Some(halves) = split_at_zero(&numbers[1..]) else {
        return Ok(false);
    };
    if halves.after.len() > 0 {
        return Ok(false);
    }
    put_ids(halves.before, ids)?;
    Ok(true)
}
