//! The coarsest inductive partition of the latches of two netlists.

use crate::latches::nets::both_nets;
use crate::latches::numbers::numbers;
use block_refine::latch_blocks::is_light;
use block_refine::{Refined, refine};
use flat_net::Net;
use sec_base::{DEFAULT_CONFLICTS, Orders};
use std::alloc::Global;
use std::rt::HostRuntime;
use text_rows::row_text::{show, show_number};

/// Shows both netlists, and then the blocks of the latches of both.
pub(crate) fn show_row(rt: &HostRuntime, row: &[u8]) {
    if let Some((left, right)) = both_nets(rt, row) {
        show_nets(rt, &left, &right);
    }
}

fn show_nets(rt: &HostRuntime, left: &Net, right: &Net) {
    match refined(rt.alloc(), left, right) {
        None => show(rt, b"too large\n"),
        Some(Refined::Limit(_)) => show(rt, b"limit\n"),
        Some(Refined::Inductive(blocks)) => show_blocks(rt, left, right, blocks.as_slice()),
    }
}

/// The coarsest inductive partition of the latches of both.
fn refined(alloc: Global, left: &Net, right: &Net) -> Option<Refined> {
    if !is_light(left) || !is_light(right) {
        return None;
    }
    let Ok(own) = numbers(alloc, left.inputs().len()) else {
        return None;
    };
    let Ok(other) = numbers(alloc, right.inputs().len()) else {
        return None;
    };
    let orders = Orders {
        left: own,
        right: other,
    };
    refine(alloc, left, right, &orders, DEFAULT_CONFLICTS).ok()
}

/// Shows how many blocks there are, and each with its latches.
fn show_blocks(rt: &HostRuntime, left: &Net, right: &Net, blocks: &[u32]) {
    let mut count = 0;
    for block in blocks {
        if *block >= count {
            count = (*block).saturating_add(1);
        }
    }
    show(rt, b"blocks ");
    show_number(rt, count as u64);
    show(rt, b"\n");
    for block in 0..count {
        show_block(rt, left, right, blocks, block);
    }
}

/// Shows the side and the name of each latch of the block. B's latches stand behind A's.
fn show_block(rt: &HostRuntime, left: &Net, right: &Net, blocks: &[u32], block: u32) {
    let own = left.latches();
    let other = right.latches();
    show(rt, b"block");
    for place in 0..blocks.len() {
        if blocks[place] == block {
            if place < own.len() {
                show(rt, b" A:");
                show(rt, own[place].name.as_slice());
            } else if place - own.len() < other.len() {
                show(rt, b" B:");
                show(rt, other[place - own.len()].name.as_slice());
            }
        }
    }
    show(rt, b"\n");
}
