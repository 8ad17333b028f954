//! Numbers of keys, in the order in which these first come.

ghost use Rattle.std.specs.Prelude.{◌≡◌, ◌+◌, ◌^◌, ◌<◌, ◌≤◌, ℕ, length, OnOk};
ghost use Rattle.block_refine.specs.latch_blocks.Numbers.{IsNumberedBy};

use base_tables::PlaceTable;
use sec_base::{Ids, NoMemory};

/// Gives the next place the number of its key, a pair of numbers.
pub(crate) fn put(
    table: &mut PlaceTable,
    numbers: &mut Ids,
    first: u32,
    second: u32,
) -> Result<(), NoMemory>
    requires { length table.old + 1 < 2 ^ 32 }
    ensures numbered { OnOk result ((key : ℕ → ℕ × ℕ) → key (length numbers.old) ≡ (first, second) → IsNumberedBy key table.old numbers.old → IsNumberedBy key table.new numbers.new) }
    ensures one { OnOk result (length numbers.new ≡ length numbers.old + 1) }
{
    let number = table.intern(first, second)?;
    numbers.push(number)?;
    Ok(())
}
