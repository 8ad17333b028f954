//! The event nodes of a pair.

ghost use Rattle.std.specs.Prelude.{IfOk};
ghost use Rattle.event_form.specs.Asked.{IsUnion};

use aig::NoMemory;
use std::alloc::Global;

/// The numbers that one of both lists has, each once.
pub fn union_of(alloc: Global, left: &[u32], right: &[u32]) -> Result<Vec<u32>, NoMemory>
    ensures { IfOk result (λ both. IsUnion left.now right.now both.items) }
{
    let mut numbers = Vec::new(alloc);
    numbers.extend_from_slice(left)?;
    numbers.extend_from_slice(right)?;
    numbers.sort()?;
    numbers.dedup();
    Ok(numbers)
}
