//! The variables of inputs and blocks.

ghost use Rattle.std.specs.Prelude.{◌≡◌, ◌+◌, ◌^◌, ◌<◌, ◌≤◌, map, All, IfOk};

use crate::latch_blocks::Variables;
use sec_base::{Ids, NoMemory, Orders};
use std::alloc::Global;

/// The first variable above all inputs' numbers.
pub(crate) fn first_block(orders: &Orders) -> u32
    requires left { All (λ i. i < 2 ^ 31) orders.now.left }
    requires right { All (λ i. i < 2 ^ 31) orders.now.right }
    ensures left { All (λ i. i < result) orders.now.left }
    ensures right { All (λ i. i < result) orders.now.right }
    ensures small { result ≤ 2 ^ 31 }
{
    let left = above(orders.left.as_slice(), 0);
    above(orders.right.as_slice(), left)
}

/// A number above all of these that isn't below the other one.
fn above(numbers: &[u32], least: u32) -> u32
    requires small { All (λ i. i < 2 ^ 31) numbers.now }
    requires least { least ≤ 2 ^ 31 }
    ensures above { All (λ i. i < result) numbers.now }
    ensures least { least ≤ result }
    ensures small { result ≤ 2 ^ 31 }
{
    let mut next = least;
    for i in numbers {
        next = next.max(*i + 1);
    }
    next
}

/// The variables of a net whose inputs have these numbers and whose latches are in these blocks, the first of which has the variable
/// `first`.
pub(crate) fn variables_of(
    alloc: Global,
    numbers: &Ids,
    blocks: &[u32],
    first: u32,
) -> Result<Variables, NoMemory>
    requires small { All (λ k. first + k < 2 ^ 32) blocks.now }
    ensures inputs { IfOk result (λ made. made.inputs ≡ numbers.now) }
    ensures latches { IfOk result (λ made. made.latches ≡ map (λ k. first + k) blocks.now) }
{
    let inputs = numbers.copy()?;
    let mut latches = Ids::new(alloc);
    for block in blocks {
        latches.push(first + *block)?;
    }
    Ok(Variables { inputs, latches })
}
