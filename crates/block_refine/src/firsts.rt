//! A member of each block.

ghost use Rattle.std.specs.Prelude.{IfOk, OnOk};
ghost use Rattle.block_refine.specs.latch_blocks.Blocks.{AreInOrder};
ghost use Rattle.block_refine.specs.Passes.{AreMembers, IsMemberPut};

use sec_base::NoMemory;
use std::alloc::Global;

/// The first latch of each block, by the blocks' numbers.
pub(crate) fn first_members(alloc: Global, blocks: &[u32]) -> Result<Vec<usize>, NoMemory>
    requires { AreInOrder blocks.now }
    ensures { IfOk result (λ firsts. AreMembers blocks.now firsts.items) }
{
    let mut firsts = Vec::new(alloc);
    for j in 0..blocks.len() {
        put_member(&mut firsts, blocks[j], j)?;
    }
    Ok(firsts)
}

/// Puts the latch where it is the first one of the next block.
fn put_member(firsts: &mut Vec<usize>, block: u32, latch: usize) -> Result<(), NoMemory>
    ensures { OnOk result (IsMemberPut block latch firsts.old.items firsts.new.items) }
{
    if block as usize == firsts.len() {
        firsts.push(latch)?;
    }
    Ok(())
}
