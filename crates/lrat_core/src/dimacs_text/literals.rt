//! Literals as numbers.

ghost use Rattle.std.specs.Prelude.{◌≡◌, ◌<◌, ◌≤◌, ◌^◌, IsTrue, IfOk};
ghost use Rattle.lrat_core.specs.dimacs_text.Literals.{is_literal, IsPut};

use proof_check::Literal;
use sec_base::NoMemory;
use text_numbers::Number;

/// Whether the number is a literal of a variable from 1 up to the limit.
pub fn is_literal(limit: u32, number: Number) -> bool
    ensures value { result ≡ is_literal limit number }
    ensures bounds { IsTrue result → (0 < number.size) × (number.size ≤ limit) }
{
    1 <= number.size && number.size <= limit as u64
}

/// Puts the literals of the numbers behind those that were there; false where a number is no literal of a variable up to the limit.
pub fn put_literals(
    limit: u32,
    numbers: &[Number],
    literals: &mut Vec<Literal>,
) -> Result<bool, NoMemory>
    requires { limit ≤ 2 ^ 30 }
    ensures { IfOk result (λ all. IsPut limit numbers.now all literals.old.items literals.new.items) }
{
    for number in numbers {
        if !is_literal(limit, *number) {
            return Ok(false);
        }
        literals.push(Literal::new(number.size as u32, !number.is_negative))?;
    }
    Ok(true)
}
