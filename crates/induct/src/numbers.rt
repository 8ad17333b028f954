//! Small numbers of inputs.

ghost use Rattle.std.specs.Prelude.{◌≡◌, ◌+◌, ◌^◌, ◌<◌, ◌≤◌, length, IfOk};
ghost use Rattle.circuit_theory.specs.Interface.{AreOrders};
ghost use Rattle.flat_net.specs.View.{ports_of};
ghost use Rattle.block_refine.specs.latch_blocks.Signals.{net_weight};
ghost use Rattle.induct.specs.Inductions.{AreOwnNumbers, AreLowered};

use flat_net::Net;
use sec_base::{Ids, MAX_WEIGHT, NoMemory, Orders};
use std::alloc::Global;

/// The same numbers, but for inputs that are left out: those at or above the number of both nets' inputs, which only inputs that are
/// left out can have, are put by numbers of their own just above it.
pub(crate) fn own_numbers(
    alloc: Global,
    a: &Net,
    b: &Net,
    orders: &Orders,
) -> Result<Orders, NoMemory>
    requires orders { AreOrders (ports_of a.now) (ports_of b.now) orders.now.left orders.now.right }
    requires light { (net_weight a.now ≤ MAX_WEIGHT) × (net_weight b.now ≤ MAX_WEIGHT) }
    ensures { IfOk result (AreOwnNumbers a.now b.now) }
{
    a.keeps();
    b.keeps();
    let left = a.inputs().len() as u32;
    let bound = left + b.inputs().len() as u32;
    Ok(Orders {
        left: lowered(alloc, orders.left.as_slice(), bound, bound)?,
        right: lowered(alloc, orders.right.as_slice(), bound, bound + left)?,
    })
}

/// The numbers below the bound as they are, and others as their place, counted from `from`.
fn lowered(alloc: Global, numbers: &[u32], bound: u32, from: u32) -> Result<Ids, NoMemory>
    requires { from + length numbers.now < 2 ^ 32 }
    ensures { IfOk result (AreLowered bound from numbers.now) }
{
    let mut made = Ids::new(alloc);
    for k in 0..numbers.len() {
        made.push(lowered_one(numbers[k], bound, from + k as u32))?;
    }
    Ok(made)
}

fn lowered_one(number: u32, bound: u32, other: u32) -> u32
    ensures low { number < bound → result ≡ number }
    ensures high { bound ≤ number → result ≡ other }
{
    if number < bound { number } else { other }
}
