//! The header of a DIMACS text.

ghost use Rattle.std.specs.Prelude.{◌≡◌, ◌≤◌, ◌^◌, [], suc, IfOk, IfSome, MatchResult};
ghost use Rattle.text_numbers.specs.Lines.{tokens_of};
ghost use Rattle.lrat_core.specs.dimacs_text.Dimacs.{count_of, counted, header_of, header_from, formula_from, body_from};

use crate::dimacs_text::counts::Header;
use crate::dimacs_text::formula::MAX_COUNT;
use text_numbers::{Number, NumberedLines, TextError, TextKind, Tokens, is_passed_over, number_of};

/// The number as a count, where it is at most 2^30.
fn counted(number: Option<Number>) -> Option<u32>
    ensures value { result ≡ counted number }
    ensures bounded { IfSome result (λ n. n ≤ 2 ^ 30) }
{
    match number {
        Some(number) => {
            if !number.is_negative && number.size <= MAX_COUNT as u64 {
                return Some(number.size as u32);
            }
            None
        }
        None => None,
    }
}

/// The count that a token spells.
fn count_of(token: &[u8]) -> Option<u32>
    ensures value { result ≡ count_of token.now }
    ensures bounded { IfSome result (λ n. n ≤ 2 ^ 30) }
{
    counted(number_of(token))
}

/// The header that a line spells, or none.
fn header_of(line: &[u8]) -> Option<Header>
    ensures value { result ≡ header_of (tokens_of line.now) }
    ensures small { IfSome result (λ header. header.variables ≤ 2 ^ 30) }
{
    let mut tokens = Tokens::new(line);
    let Some(first) = tokens.next_token() else {
        return None;
    };
    let Some(second) = tokens.next_token() else {
        return None;
    };
    let Some(variables) = tokens.next_token() else {
        return None;
    };
    let Some(clauses) = tokens.next_token() else {
        return None;
    };
    if let Some(_) = tokens.next_token() {
        return None;
    }
    if first == b"p".as_slice() && second == b"cnf".as_slice() {
        return header_from(count_of(variables), count_of(clauses));
    }
    None
}

/// The header of these counts, where both are there.
fn header_from(variables: Option<u32>, clauses: Option<u32>) -> Option<Header>
    requires { IfSome variables (λ n. n ≤ 2 ^ 30) }
    ensures value { result ≡ header_from variables clauses }
    ensures small { IfSome result (λ header. header.variables ≤ 2 ^ 30) }
{
    let Some(variables) = variables else {
        return None;
    };
    match clauses {
        Some(clauses) => Some(Header { variables, clauses }),
        None => None,
    }
}

/// Takes the lines up to the header, and with it.
pub(crate) fn read_header(lines: &mut NumberedLines<'_>) -> Result<Header, TextError>
    ensures small { IfOk result (λ header. header.variables ≤ 2 ^ 30) }
    ensures lines { MatchResult result
        (λ header. formula_from (suc lines.old.number) lines.old.left ≡ body_from header [] (suc lines.new.number) lines.new.left)
        (λ e. formula_from (suc lines.old.number) lines.old.left ≡ Err e) }
{
    while let Some(line) = lines.next_line() {
        if !is_passed_over(line) {
            return match header_of(line) {
                Some(header) => Ok(header),
                None => Err(TextError::At {
                    line: lines.number,
                    kind: TextKind::BadHeader,
                }),
            };
        }
    }
    Err(TextError::At {
        line: 0,
        kind: TextKind::BadHeader,
    })
}
