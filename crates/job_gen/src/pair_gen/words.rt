//! The words of a seed.

ghost use Rattle.std.specs.Prelude.{◌≡◌, IfOk};
ghost use Rattle.job_gen.specs.pair_gen.Words.{words_of};

use rand_core::SeedableRng;
use rand_core::utils::NextWord;
use rand_xoshiro::Xoshiro256PlusPlus;
use sec_base::NoMemory;
use std::alloc::Global;

/// The words that decide a pair, in the order in which they are drawn.
pub(crate) fn words_of(alloc: Global, seed: u64) -> Result<Vec<u64>, NoMemory>
    ensures { IfOk result (λ words. words.items ≡ words_of seed) }
{
    let mut generator = Xoshiro256PlusPlus::seed_from_u64(seed);
    let mut words = Vec::with_capacity(alloc, 5040)?;
    for _n in 0..5040u32 {
        words.push(generator.next_word())?;
    }
    Ok(words)
}
