//! The assignments that nodes are tried with.

ghost use Rattle.std.specs.Prelude.{◌≡◌, ◌*◌, length, IfOk};

use aig::NoMemory;
use rand_core::SeedableRng;
use rand_core::utils::NextWord;
use rand_xoshiro::Xoshiro256PlusPlus;
use std::alloc::Global;

/// Eight words for each of so many variables: the first that xoshiro256++ draws, seeded with 1. So those of a variable stay the same while
/// there come to be more.
pub(crate) fn words_for(alloc: Global, variables: u32) -> Result<Vec<u64>, NoMemory>
    ensures { IfOk result (λ words. length words.items ≡ 8 * variables) }
{
    let mut generator = Xoshiro256PlusPlus::seed_from_u64(1);
    let mut words = Vec::new(alloc);
    for _n in 0..8 * (variables as usize) {
        words.push(generator.next_word())?;
    }
    Ok(words)
}
