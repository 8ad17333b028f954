//! The partition by initial values, and its splits.

ghost use Rattle.std.specs.Prelude.{◌≡◌, ◌+◌, ◌^◌, ◌<◌, length, IfOk, if◌then◌else◌};
ghost use Rattle.block_refine.specs.latch_blocks.Blocks.{IsByStarts, IsSplit};
ghost use Rattle.block_refine.specs.latch_blocks.Numbers.{start_kind, start_rest};

use crate::latch_blocks::numbers::put;
use base_tables::PlaceTable;
use sec_base::{Ids, Init, NoMemory};
use std::alloc::Global;

/// The partition by initial values: all latches that start with 0 are one block, and so are those that start with 1; each other
/// latch is a block of its own.
pub fn initial_blocks(alloc: Global, starts: &[Init]) -> Result<Ids, NoMemory>
    requires { length starts.now + 1 < 2 ^ 32 }
    ensures { IfOk result (IsByStarts starts.now) }
{
    let mut table = PlaceTable::new(alloc);
    let mut blocks = Ids::new(alloc);
    for j in 0..starts.len() {
        let (kind, rest) = key(starts[j], j as u32);
        put(&mut table, &mut blocks, kind, rest)?;
    }
    table.keeps();
    Ok(blocks)
}

/// The blocks of a finer partition: two latches stay in one block where they have one bit.
pub fn split_blocks(alloc: Global, blocks: &[u32], bits: &[bool]) -> Result<Ids, NoMemory>
    requires each { length bits.now ≡ length blocks.now }
    requires few { length blocks.now + 1 < 2 ^ 32 }
    ensures { IfOk result (IsSplit blocks.now bits.now) }
{
    let mut table = PlaceTable::new(alloc);
    let mut fine = Ids::new(alloc);
    for j in 0..blocks.len() {
        put(&mut table, &mut fine, blocks[j], digit(bits[j]))?;
    }
    table.keeps();
    Ok(fine)
}

/// The bit as a number.
fn digit(bit: bool) -> u32
    ensures { result ≡ (if bit then 1 else 0) }
{
    if bit { 1 } else { 0 }
}

/// Which initial value it is, 0, 1 or neither, and what tells latches that start with neither apart.
fn key(start: Init, place: u32) -> (u32, u32)
    ensures kind { result.0 ≡ start_kind start }
    ensures rest { result.1 ≡ start_rest start place }
{
    match start {
        Init::Zero => (0, 0),
        Init::One => (1, 0),
        _ => (2, place),
    }
}
