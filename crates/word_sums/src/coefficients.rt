//! Sums of the literals of a graph, as a list that has each literal's coefficient at the literal's place.

ghost use Rattle.std.specs.Prelude.{◌≡◌, ℕ, ◌+◌, ◌*◌, ◌<◌, Bool, length, All, IsTrue};
ghost use Rattle.word_sums.specs.Sums.{bit_number, sum_number, terms_number, word_number, word_bits, AreCongruent};
ghost use Rattle.word_sums.specs.Cuts.{AreBelow};

use crate::vanishing::Term;
use aig::Lit;

/// Adds the literal so many times, modulo 2^64.
fn add(coefficients: &mut [u64], l: Lit, times: u64)
    requires { l.0 < length coefficients.old }
    ensures each { length coefficients.new ≡ length coefficients.old }
    ensures sum { (f : ℕ → Bool) → AreCongruent (sum_number f 0 coefficients.new) (sum_number f 0 coefficients.old + times * bit_number (f l.0)) }
{
    let place = l.0 as usize;
    coefficients[place] = coefficients[place].wrapping_add(times);
}

/// Adds the terms so many times.
pub(crate) fn add_terms(coefficients: &mut [u64], terms: &[Term], times: u64)
    requires { AreBelow terms.now (length coefficients.old) }
    ensures each { length coefficients.new ≡ length coefficients.old }
    ensures sum { (f : ℕ → Bool) → AreCongruent (sum_number f 0 coefficients.new) (sum_number f 0 coefficients.old + times * terms_number f terms.now) }
{
    for i in 0..terms.len() {
        let term = terms[i];
        add(coefficients, term.lit, times.wrapping_mul(term.coefficient));
    }
}

/// Adds the number of the left word so many times, and takes that of the right word away as often.
pub(crate) fn put_words(coefficients: &mut [u64], left: &[Lit], right: &[Lit], times: u64)
    requires left { All (λ l. l.0 < length coefficients.old) left.now }
    requires right { All (λ l. l.0 < length coefficients.old) right.now }
    requires lengths { length left.now ≡ length right.now }
    ensures each { length coefficients.new ≡ length coefficients.old }
    ensures sum { (f : ℕ → Bool) → AreCongruent (sum_number f 0 coefficients.new + times * word_number (word_bits f right.now)) (sum_number f 0 coefficients.old + times * word_number (word_bits f left.now)) }
{
    let mut weight = times;
    for i in 0..left.len() {
        add(coefficients, left[i], weight);
        add(coefficients, right[i], weight.wrapping_neg());
        weight = weight.wrapping_add(weight);
    }
}

/// Whether no literal is left.
pub(crate) fn is_empty(coefficients: &[u64]) -> bool
    ensures { IsTrue result → (f : ℕ → Bool) → sum_number f 0 coefficients.now ≡ 0 }
{
    for i in 0..coefficients.len() {
        if coefficients[i] != 0 {
            return false;
        }
    }
    true
}
