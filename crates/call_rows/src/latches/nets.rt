//! Netlists of rows.

use crate::circuits::net_in;
use flat_net::Net;
use std::alloc::Global;
use std::rt::HostRuntime;
use text_rows::row_text::{show, split_at, text_of};

/// The net that the marks spell.
pub(crate) fn net_of(alloc: Global, marks: &[u8]) -> Option<Net> {
    net_in(alloc, text_of(alloc, marks, b"").bytes())
}

/// Shows the row, and gives the two nets that its marks spell, with `;` between them; or shows which of them is none.
pub(crate) fn both_nets(rt: &HostRuntime, row: &[u8]) -> Option<(Net, Net)> {
    show(rt, row);
    show(rt, b"\n");
    let (first, second) = split_at(b';', row);
    let Some(left) = net_of(rt.alloc(), first) else {
        show(rt, b"no first net\n");
        return None;
    };
    let Some(right) = net_of(rt.alloc(), second) else {
        show(rt, b"no second net\n");
        return None;
    };
    Some((left, right))
}
