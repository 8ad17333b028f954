//! Random words, eight for each variable: bit k of them is the variable's bit under assignment k.

ghost use Rattle.std.specs.Prelude.{◌≡◌, ◌*◌, ◌<◌, length, slice_index, IfOk};
ghost use Rattle.swept_queries.specs.sweep.lane_eval.Signatures.{word_lane};
ghost use Rattle.swept_queries.specs.Lanes.{lane_bits};
ghost use Rattle.swept_queries.specs.Words.{words_for};

use crate::node_agreement::Model;
use crate::sweep::{Bits, NoMemory};
use rand_core::SeedableRng;
use rand_core::utils::NextWord;
use rand_xoshiro::Xoshiro256PlusPlus;
use std::alloc::Global;

/// Eight words for each of so many variables, in their order: the first that xoshiro256++ draws, seeded with 1.
pub(crate) fn seeded_words(alloc: Global, variables: u32) -> Result<Vec<u64>, NoMemory>
    ensures words { IfOk result (λ words. words.items ≡ words_for variables) }
    ensures each { IfOk result (λ words. length words.items ≡ 8 * variables) }
{
    let mut generator = Xoshiro256PlusPlus::seed_from_u64(1);
    let mut words = Vec::new(alloc);
    for _n in 0..8 * (variables as usize) {
        words.push(generator.next_word())?;
    }
    Ok(words)
}

/// The bits of these variables under the assignment of this number.
pub(crate) fn bits_at(
    alloc: Global,
    words: &[u64],
    vars: &[u32],
    lane: u32,
) -> Result<Bits, NoMemory>
    ensures { IfOk result (λ bits. bits ≡ lane_bits words.now vars.now lane) }
{
    let mut bits = Bits::new(alloc);
    for v in vars {
        bits.push(bit_at(words, *v, lane))?;
    }
    Ok(bits)
}

/// The bit of the variable.
pub(crate) fn bit_at(words: &[u64], v: u32, lane: u32) -> bool
    ensures { result ≡ word_lane words.now lane v }
{
    let place = 8 * (v as usize) + (lane / 64) as usize;
    (word_at(words, place) >> (lane % 64)) % 2 == 1
}

/// The word at the place, or 0 behind the last one.
fn word_at(words: &[u64], place: usize) -> u64
    ensures { result ≡ slice_index words.now place }
{
    if place < words.len() { words[place] } else { 0 }
}

/// Puts assignments near each of these models: near the first in place of the last 64 of the 512, near the next in place of the 64 before
/// these, and so on.
pub fn put_models(words: &mut [u64], models: &[Model])
    ensures { length words.new ≡ length words.old }
{
    for i in 0..models.len() {
        put_model(words, &models[i], 7 - i % 8);
    }
}

/// Gives each variable of the model as the word of this number 64 times the model's bit, of which one is turned, or some where there are
/// more than 63 variables. The first isn't.
pub(crate) fn put_model(words: &mut [u64], model: &Model, number: usize)
    requires { number < 8 }
    ensures { length words.new ≡ length words.old }
{
    let count = model.vars.len().min(model.bits.len());
    for i in 0..count {
        let place = 8 * (model.vars[i] as usize) + number;
        if place < words.len() {
            let word = if model.bits[i] { u64::MAX } else { 0 };
            words[place] = word ^ (2u64 << ((i % 63) as u32));
        }
    }
}
