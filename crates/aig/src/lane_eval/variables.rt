//! The blocks of variables.

ghost use lib.Lanes.{chunk};
ghost use Rattle.std.specs.Prelude.{◌≡◌, ℕ, ◌+◌, ◌*◌, ◌^◌, ◌<◌, ◌≤◌, length, All, IfOk};
ghost use Rattle.aig.specs.circuit_theory.Query.{bits_of};
ghost use Rattle.aig.specs.lane_eval.Blocks.{word_bit, block_bit, lane, IsBlock};
ghost use Rattle.aig.specs.lane_eval.Signatures.{AreWordBlocks};

use crate::NoMemory;
use std::alloc::Global;
use std::simd::u64x8;

/// How many assignments a block has.
pub(crate) const LANES: u32 = 512;

/// How many variables tell the assignments of a block apart.
const LOW: usize = 9;

const ALL: u64 = 0xFFFF_FFFF_FFFF_FFFF;

/// The blocks of the variables that tell the assignments of a block apart: bit k of block j is bit j of k.
const LOW_BLOCKS: [[u64; 8]; LOW] = [
    [0xAAAA_AAAA_AAAA_AAAA; 8],
    [0xCCCC_CCCC_CCCC_CCCC; 8],
    [0xF0F0_F0F0_F0F0_F0F0; 8],
    [0xFF00_FF00_FF00_FF00; 8],
    [0xFFFF_0000_FFFF_0000; 8],
    [0xFFFF_FFFF_0000_0000; 8],
    [0, ALL, 0, ALL, 0, ALL, 0, ALL],
    [0, 0, ALL, ALL, 0, 0, ALL, ALL],
    [0, 0, 0, 0, ALL, ALL, ALL, ALL],
];

/// Puts the block of each variable under the 512 assignments from 512 times the number on, where bit j of an assignment's
/// number is the bit of variable j.
pub(crate) fn put_variables(blocks: &mut [u64x8], number: u32)
    requires few { length blocks.old ≤ 24 }
    requires number { number < 2 ^ 15 }
    ensures each { length blocks.new ≡ length blocks.old }
    ensures blocks { All IsBlock blocks.new }
    ensures bits { (k : ℕ) → k < 512 → lane k blocks.new ≡ bits_of (512 * number + k) (length blocks.old) }
{
    for place in 0..blocks.len() {
        blocks[place] = variable_block(place, number);
    }
}

/// The block of one variable of a table: bit k is bit `place` of 512 times the number, plus k.
pub fn variable_block(place: usize, number: u32) -> u64x8
    requires few { place < 24 }
    requires number { number < 2 ^ 15 }
    ensures block { IsBlock result }
    ensures bits { (k : ℕ) → k < 512 → block_bit result k ≡ word_bit (512 * number + k) place }
{
    if place < LOW {
        u64x8::from_array(LOW_BLOCKS[place])
    } else {
        splat_bit((number >> (place - LOW)) % 2 == 1)
    }
}

/// The block with each bit set, or none.
fn splat_bit(bit: bool) -> u64x8
    ensures block { IsBlock result }
    ensures bits { (k : ℕ) → k < 512 → block_bit result k ≡ bit }
{
    u64x8::splat(if bit { ALL } else { 0 })
}

/// A block of each eight words.
pub(crate) fn word_blocks(
    alloc: Global,
    words: &[u64],
    count: usize,
) -> Result<Vec<u64x8>, NoMemory>
    requires { length words.now ≡ 8 * count }
    ensures { IfOk result (λ blocks. AreWordBlocks words.now count blocks.items) }
{
    let mut blocks = Vec::new(alloc);
    for i in 0..count {
        blocks.push(block_at(words, 8 * i))?;
    }
    Ok(blocks)
}

/// The eight words from a place on.
fn block_at(words: &[u64], at: usize) -> u64x8
    requires { at + 8 ≤ length words.now }
    ensures words { result ≡ chunk at 8 words.now }
    ensures block { IsBlock result }
{
    u64x8::from_slice(&words[at..])
}
