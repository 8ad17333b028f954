//! Numbers of inputs.

ghost use Rattle.std.specs.Prelude.{◌≡◌, ◌^◌, ◌<◌, length, All, IfOk};
ghost use Rattle.base_tables.specs.Table.{AreDistinct};

use sec_base::{Ids, NoMemory};
use std::alloc::Global;

/// So many numbers from 0 on; want of memory where they are more than a million.
pub(crate) fn numbers(alloc: Global, count: usize) -> Result<Ids, NoMemory>
    ensures each { IfOk result (λ made. length made ≡ count) }
    ensures small { IfOk result (All (λ i. i < 2 ^ 31)) }
    ensures once { IfOk result AreDistinct }
{
    if count > 1_000_000 {
        return Err(NoMemory);
    }
    let mut made = Ids::new(alloc);
    for number in 0..count {
        made.push(number as u32)?;
    }
    Ok(made)
}
