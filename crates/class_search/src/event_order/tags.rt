//! The order of the enabled latches of two nets.

ghost use Rattle.std.specs.Prelude.{◌+◌, ◌^◌, ◌<◌, IfOk, All};
ghost use Rattle.std.specs.List.{AllZip};
ghost use Rattle.class_search.specs.event_order.Order.{IsMarkedNet, IsTagOf, IsTagOrder};
ghost use Rattle.class_search.specs.event_order.Turns.{IsTagAt};

use crate::event_order::depths::put_depths;
use crate::event_order::turns::{Turn, turns_of};
use flat_net::Net;
use sec_base::{Bits, NoMemory, Side, Tag};
use std::alloc::Global;

/// The enabled latches of both nets in the order in which they are given classes: by depth, where self-edges of enabled latches don't
/// count, then those of the first net before those of the second, then by position.
pub fn latch_order(
    alloc: Global,
    left: &Net,
    left_enabled: &Bits,
    right: &Net,
    right_enabled: &Bits,
) -> Result<Vec<Tag>, NoMemory>
    requires left { IsMarkedNet left.now left_enabled.now }
    requires right { IsMarkedNet right.now right_enabled.now }
    ensures named { IfOk result (λ tags. All (IsTagOf left.now right.now) tags.items) }
    ensures order { IfOk result (λ tags. IsTagOrder left.now right.now tags.items) }
{
    left.keeps();
    right.keeps();
    let mut depths = Vec::new(alloc);
    put_depths(alloc, left, left_enabled, &mut depths)?;
    put_depths(alloc, right, right_enabled, &mut depths)?;
    let turns = turns_of(alloc, depths.as_slice())?;
    tags_of(alloc, turns.as_slice(), left.latches().len())
}

/// The latches with these turns, where so many latches are of the first circuit.
fn tags_of(alloc: Global, turns: &[Turn], first: usize) -> Result<Vec<Tag>, NoMemory>
    requires first { first < 2 ^ 32 }
    requires within { All (λ t. t.number < first + 2 ^ 32) turns.now }
    ensures { IfOk result (λ tags. AllZip (λ turn tag. IsTagAt first turn.number tag) turns.now tags.items) }
{
    let mut tags = Vec::with_capacity(alloc, turns.len())?;
    for turn in turns {
        tags.push(tag_at(first, turn.number))?;
    }
    Ok(tags)
}

/// The latch with this place among those of both circuits, so many of which are of the first.
fn tag_at(first: usize, number: usize) -> Tag
    requires first { first < 2 ^ 32 }
    requires within { number < first + 2 ^ 32 }
    ensures { IsTagAt first number result }
{
    if number < first {
        Tag {
            side: Side::A,
            latch: number as u32,
        }
    } else {
        Tag {
            side: Side::B,
            latch: (number - first) as u32,
        }
    }
}
