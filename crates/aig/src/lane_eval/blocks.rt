//! Blocks of 512 bits.

ghost use lib.Lanes.{zip2};
ghost use Rattle.std.specs.Prelude.{◌≡◌, ℕ, ◌+◌, ◌*◌, ◌/◌, ◌%◌, ◌^◌, ◌<◌, ◌==◌, bit_and};
ghost use Rattle.aig.specs.lane_eval.Blocks.{flipped, word_bit, block_bit, IsBlock, IsFirstBit, IsFirstOf};

use std::simd::u64x8;

/// The lane-wise and of the blocks, each complemented where its flag is set.
pub fn and_block(l: u64x8, r: u64x8, flip_l: bool, flip_r: bool) -> u64x8
    ensures value { result ≡ zip2 bit_and (flipped flip_l l) (flipped flip_r r) }
    ensures block { IsBlock result }
{
    flip(l, flip_l) & flip(r, flip_r)
}

fn flip(block: u64x8, flag: bool) -> u64x8
    ensures { result ≡ flipped flag block }
{
    if flag { !block } else { block }
}

/// The lowest bit of the block that is set.
pub(crate) fn first_bit(block: u64x8) -> Option<u32>
    requires { IsBlock block }
    ensures { IsFirstBit block result }
{
    let words = block.to_array();
    for i in 0..8usize {
        if let Some(j) = first_of(words[i]) {
            return Some(64 * (i as u32) + j);
        }
    }
    None
}

/// The lowest bit of the word that is set.
fn first_of(word: u64) -> Option<u32>
    ensures { IsFirstOf word result }
{
    if word == 0 {
        return None;
    }
    for j in 0..64u32 {
        if (word >> j) % 2 == 1 {
            return Some(j);
        }
    }
    None
}
