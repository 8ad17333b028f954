//! The initial values of all latches.

ghost use Rattle.std.specs.Prelude.{◌≡◌, ◌+◌, ◌^◌, ◌<◌, ◌++◌, length, map, IfOk, OnOk};
ghost use Rattle.flat_net.specs.declared.parts.LatchAt.{LatchAt};
ghost use Rattle.block_refine.specs.latch_blocks.Blocks.{IsByStarts};
ghost use Rattle.block_refine.specs.latch_blocks.Partitions.{starts_of};

use crate::latch_blocks::initial_blocks;
use flat_net::{LatchAt, Net};
use sec_base::{Ids, Init, NoMemory};
use std::alloc::Global;

/// The partition of all latches by their initial values, A's first.
pub(crate) fn by_starts(alloc: Global, left: &Net, right: &Net) -> Result<Ids, NoMemory>
    requires { length (starts_of left.now right.now) + 1 < 2 ^ 32 }
    ensures { IfOk result (IsByStarts (starts_of left.now right.now)) }
{
    let mut made = Vec::new(alloc);
    put_starts(&mut made, left.latches())?;
    put_starts(&mut made, right.latches())?;
    initial_blocks(alloc, &made)
}

fn put_starts(made: &mut Vec<Init>, latches: &[LatchAt]) -> Result<(), NoMemory>
    ensures { OnOk result (made.new.items ≡ made.old.items ++ map (λ (l : LatchAt). l.init) latches.now) }
{
    for latch in latches {
        made.push(latch.init)?;
    }
    Ok(())
}
