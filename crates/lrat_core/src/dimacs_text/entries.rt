//! What a DIMACS text holds behind its header: literals, and the ends of clauses.

ghost use Rattle.std.specs.Prelude.{◌≡◌, ◌≤◌, ◌^◌, if◌then◌else◌};
ghost use Rattle.lrat_core.specs.dimacs_text.Entries.{entry_of, entry_from, is_end};

use proof_check::Literal;
use text_numbers::{Number, number_of};

/// A literal of a clause, or the 0 that ends a clause.
#[derive(Clone, Copy)]
pub enum Entry {
    Literal(Literal),
    End,
}

/// Whether the entry ends a clause.
pub(crate) fn is_end(entry: &Entry) -> bool
    ensures { result ≡ is_end entry.now }
{
    match entry {
        Entry::Literal(_) => false,
        Entry::End => true,
    }
}

/// How many clauses the entry ends: one or none.
pub(crate) fn ends_in(entry: &Entry) -> usize
    ensures { result ≡ (if is_end entry.now then 1 else 0) }
{
    if is_end(entry) { 1 } else { 0 }
}

/// The entry that a token spells, where it is a number and its variable isn't above the limit.
pub(crate) fn entry_of(limit: u32, token: &[u8]) -> Option<Entry>
    requires { limit ≤ 2 ^ 30 }
    ensures { result ≡ entry_of limit token.now }
{
    entry_from(limit, number_of(token))
}

/// The entry that a number stands for.
fn entry_from(limit: u32, number: Option<Number>) -> Option<Entry>
    requires { limit ≤ 2 ^ 30 }
    ensures { result ≡ entry_from limit number }
{
    match number {
        Some(number) => {
            if number.size == 0 {
                return Some(Entry::End);
            }
            if number.size <= limit as u64 {
                let literal = Literal::new(number.size as u32, !number.is_negative);
                return Some(Entry::Literal(literal));
            }
            None
        }
        None => None,
    }
}
