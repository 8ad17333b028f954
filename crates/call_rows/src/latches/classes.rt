//! The classes of the enabled latches of two netlists.

ghost use Rattle.std.specs.Prelude.{◌≤◌};

use crate::latches::circuits::circuit_of;
use crate::latches::nets::both_nets;
use class_search::class_separations::Apart;
use event_classes::{ClassMap, EventError, make_classes};
use flat_net::Net;
use sec_base::{MAX_CONFLICTS, Side, Tag};
use std::rt::HostRuntime;
use text_rows::row_text::{show, show_bit, show_count, show_number};

/// Shows both netlists, then a line with the enabled latches of both in their order, each with its class, and a line for what tells each
/// two classes apart.
pub(crate) fn show_row(rt: &HostRuntime, row: &[u8], conflicts: u32)
    requires { conflicts ≤ MAX_CONFLICTS }
{
    if let Some((left, right)) = both_nets(rt, row) {
        show_nets(rt, left, right, conflicts);
    }
}

fn show_nets(rt: &HostRuntime, left: Net, right: Net, conflicts: u32)
    requires { conflicts ≤ MAX_CONFLICTS }
{
    let Some(left) = circuit_of(rt.alloc(), left) else {
        return show(rt, b"first has a cycle\n");
    };
    let Some(right) = circuit_of(rt.alloc(), right) else {
        return show(rt, b"second has a cycle\n");
    };
    match make_classes(rt.alloc(), left, right, conflicts) {
        Ok(map) => show_map(rt, &map),
        Err(error) => show(rt, line_of(&error)),
    }
}

fn line_of(error: &EventError) -> &'static [u8] {
    match error {
        EventError::TooManyEvents => b"too many events\n",
        EventError::TooLarge(_) => b"too large\n",
        EventError::Limit { .. } => b"limit\n",
        EventError::NoMemory => b"no memory\n",
    }
}

fn show_map(rt: &HostRuntime, map: &ClassMap) {
    show(rt, b"classes ");
    show_number(rt, map.classes.len() as u64);
    for tag in map.taken.as_slice() {
        show_tag(rt, map, *tag, true);
    }
    show(rt, b"\n");
    for apart in map.aparts.as_slice() {
        show_apart(rt, map, apart);
    }
}

/// Shows what tells two classes apart: a latch of the lower one, the founder of the higher one, the values of their enables, and the bits
/// of the variables in their order.
fn show_apart(rt: &HostRuntime, map: &ClassMap, apart: &Apart) {
    show(rt, b"apart");
    match apart.low {
        Some(tag) => show_tag(rt, map, tag, false),
        None => show(rt, b" always"),
    }
    show_tag(rt, map, apart.high, false);
    show(rt, b" values ");
    show_bit(rt, apart.left);
    show(rt, b" ");
    show_bit(rt, apart.right);
    show(rt, b" bits ");
    for bit in apart.bits.as_slice() {
        show_bit(rt, *bit);
    }
    show(rt, b"\n");
}

/// Shows the side and the name of the latch, and its class where that is asked for.
fn show_tag(rt: &HostRuntime, map: &ClassMap, tag: Tag, is_classed: bool) {
    let (side, circuit): (&[u8], _) = match tag.side {
        Side::A => (b" A:", &map.left),
        Side::B => (b" B:", &map.right),
    };
    circuit.keeps();
    let latches = circuit.net().latches();
    if (tag.latch as usize) < latches.len() {
        show(rt, side);
        show(rt, latches[tag.latch as usize].name.as_slice());
        if is_classed {
            show_count(rt, circuit.class(tag.latch) as u64);
        }
    }
}
