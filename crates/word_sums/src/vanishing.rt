//! Sums of literals that come to 0 under every assignment, by all bits of a cut's leaves.

ghost use Rattle.std.specs.Prelude.{◌≡◌, ℕ, ◌*◌, ◌<◌, Bool, length, IfSome, IsTrue};
ghost use Rattle.aig.specs.Values.{value};
ghost use Rattle.word_sums.specs.Sums.{bit_number, terms_number, AreCongruent};
ghost use Rattle.word_sums.specs.Cuts.{IsAtRow, AreBelow, VanishAt, Vanish};

use crate::cuts::{Cut, Row, lit_bit};
use aig::{Aig, Lit};

/// How far down below a literal the leaves of a cut are looked for.
pub(crate) const STEPS: u32 = 8;

/// A literal with a coefficient.
#[derive(Clone, Copy)]
pub struct Term {
    pub lit: Lit,
    pub coefficient: u64,
}

/// Whether the literals are below the number.
pub(crate) fn are_below(terms: &[Term], number: u32) -> bool
    ensures { IsTrue result → AreBelow terms.now number }
{
    for i in 0..terms.len() {
        if terms[i].lit.0 >= number {
            return false;
        }
    }
    true
}

/// Whether the terms come to 0 modulo 2^64 whatever bits the leaves have, and so under every assignment: an identity that holds in each
/// row of a local table.
pub(crate) fn vanish(graph: &Aig, cut: Cut, terms: &[Term]) -> bool
    requires { AreBelow terms.now (2 * length graph.now) }
    ensures { IsTrue result → Vanish graph.now terms.now }
{
    if !vanish_by_first(graph, cut, false, terms) {
        return false;
    }
    vanish_by_first(graph, cut, true, terms)
}

/// The same where the first leaf has this bit.
fn vanish_by_first(graph: &Aig, cut: Cut, first: bool, terms: &[Term]) -> bool
    requires { AreBelow terms.now (2 * length graph.now) }
    ensures { IsTrue result → (a : ℕ → Bool) → value graph.now a (2 * cut.first) ≡ first → VanishAt graph.now a terms.now }
{
    if !vanish_by_second(graph, cut, first, false, terms) {
        return false;
    }
    vanish_by_second(graph, cut, first, true, terms)
}

/// The same where the first two leaves have these bits.
fn vanish_by_second(graph: &Aig, cut: Cut, first: bool, second: bool, terms: &[Term]) -> bool
    requires { AreBelow terms.now (2 * length graph.now) }
    ensures { IsTrue result → (a : ℕ → Bool) → value graph.now a (2 * cut.first) ≡ first → value graph.now a (2 * cut.second) ≡ second → VanishAt graph.now a terms.now }
{
    let low = Row {
        first,
        second,
        third: false,
    };
    let high = Row {
        first,
        second,
        third: true,
    };
    if !vanish_at(graph, cut, low, terms) {
        return false;
    }
    vanish_at(graph, cut, high, terms)
}

/// The same where the leaves have these bits.
fn vanish_at(graph: &Aig, cut: Cut, row: Row, terms: &[Term]) -> bool
    requires { AreBelow terms.now (2 * length graph.now) }
    ensures { IsTrue result → (a : ℕ → Bool) → IsAtRow graph.now a cut row → VanishAt graph.now a terms.now }
{
    match number_at(graph, cut, row, terms) {
        Some(number) => number == 0,
        None => false,
    }
}

/// What the terms come to where the leaves have these bits.
fn number_at(graph: &Aig, cut: Cut, row: Row, terms: &[Term]) -> Option<u64>
    requires { AreBelow terms.now (2 * length graph.now) }
    ensures { IfSome result (λ s. (a : ℕ → Bool) → IsAtRow graph.now a cut row → AreCongruent (terms_number (value graph.now a) terms.now) s) }
{
    let mut number = 0u64;
    for i in 0..terms.len() {
        let bit = lit_bit(graph, cut, row, terms[i].lit, STEPS)?;
        number = number.wrapping_add(weighed(terms[i].coefficient, bit));
    }
    Some(number)
}

/// The coefficient, or 0 where the bit is 0.
fn weighed(coefficient: u64, bit: bool) -> u64
    ensures { result ≡ coefficient * bit_number bit }
{
    if bit { coefficient } else { 0 }
}
