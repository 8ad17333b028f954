//! A net that is made by hand.

use crate::nets::show_net;
use crate::row_text::{show, show_count};
use flat_net::{Net, NetMaker};
use sec_base::Seq;
use std::rt::HostRuntime;

/// Shows that the maker holds one name and not another, and the place of the first.
fn show_held(rt: &HostRuntime, maker: &NetMaker) {
    if maker.has(b"a") && !maker.has(b"b") {
        show(rt, b" holds a, not b,");
    }
    if let Some(found) = maker.find(b"a") {
        show(rt, b" finds");
        show_count(rt, found.0 as u64);
    }
}

/// Shows the net, the number of its signals, and whether one of its latches has the input's name.
fn show_found(rt: &HostRuntime, net: &Net) {
    show(rt, b",");
    show_net(rt, net);
    show(rt, b" size");
    show_count(rt, net.size() as u64);
    match net.latch_named(b"a") {
        Some(_) => show(rt, b", a latch a\n"),
        None => show(rt, b", no latch a\n"),
    }
}

/// Shows a net that passes its input on, and what is found while it is made.
pub(crate) fn show_made(rt: &HostRuntime) {
    show(rt, b"by hand:");
    let mut maker = NetMaker::new(rt.alloc());
    let Ok(a) = maker.input(b"a") else {
        return show(rt, b" no memory\n");
    };
    show_held(rt, &maker);
    let _ = maker.output(b"y", a);
    match b"clk".to_vec(rt.alloc()) {
        Ok(clock) => maker.set_clock(Seq::from_vec(clock)),
        Err(_) => show(rt, b" no memory"),
    }
    show_found(rt, &maker.finish());
}
