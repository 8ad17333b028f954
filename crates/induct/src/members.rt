//! The blocks as lists of latches.

ghost use Rattle.std.specs.Prelude.{◌≡◌, ◌+◌, ◌^◌, ◌<◌, ◌≤◌, length, map, IfOk, OnOk};
ghost use Rattle.block_refine.specs.latch_blocks.Blocks.{AreInOrder};
ghost use Rattle.induct.specs.Inductions.{tag_at, AreMembers, IsPut};

use crate::induction::{Block, Blocks};
use sec_base::{NoMemory, Seq, Side, Tag};
use std::alloc::Global;

/// The latches of each block, where `count` latches of A stand before those of B.
pub(crate) fn members(alloc: Global, count: usize, blocks: &[u32]) -> Result<Blocks, NoMemory>
    requires order { AreInOrder blocks.now }
    requires few { length blocks.now < 2 ^ 32 }
    requires left { count ≤ length blocks.now }
    ensures { IfOk result (AreMembers count blocks.now) }
{
    let mut lists = Vec::new(alloc);
    for place in 0..blocks.len() {
        put_member(
            alloc,
            &mut lists,
            blocks[place] as usize,
            tag_at(count, place),
        )?;
    }
    listed(alloc, lists)
}

/// Puts the latch into its block, which may be the next one.
fn put_member(
    alloc: Global,
    lists: &mut Vec<Vec<Tag>>,
    block: usize,
    tag: Tag,
) -> Result<(), NoMemory>
    requires { block ≤ length lists.old.items }
    ensures { OnOk result (IsPut block tag (map (λ list. list.items) lists.old.items) (map (λ list. list.items) lists.new.items)) }
{
    if block == lists.len() {
        let mut list = Vec::new(alloc);
        list.push(tag)?;
        lists.push(list)?;
        return Ok(());
    }
    let list = &mut lists[block];
    list.push(tag)?;
    Ok(())
}

fn listed(alloc: Global, lists: Vec<Vec<Tag>>) -> Result<Blocks, NoMemory>
    ensures { IfOk result (λ made. made ≡ map (λ list. list.items) lists.items) }
{
    let mut blocks = Blocks::new(alloc);
    for list in lists {
        let block: Block = Seq::from_vec(list);
        blocks.push(block)?;
    }
    Ok(blocks)
}

/// The latch at a place, where `count` latches of A stand before those of B.
pub(crate) fn tag_at(count: usize, place: usize) -> Tag
    requires { place < 2 ^ 32 }
    ensures { result ≡ tag_at count place }
{
    if place < count {
        Tag {
            side: Side::A,
            latch: place as u32,
        }
    } else {
        Tag {
            side: Side::B,
            latch: (place - count) as u32,
        }
    }
}
