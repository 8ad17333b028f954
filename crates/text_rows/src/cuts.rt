//! Nets with their first latch cut out, and the values of their gates.

use crate::nets::show_net;
use crate::row_text::{show, show_bit, show_count};
use flat_net::Net;
use sec_base::Ids;
use std::rt::HostRuntime;

/// Shows the place at which each latch is found by its name.
pub(crate) fn show_places(rt: &HostRuntime, net: &Net) {
    if !net.latches().is_empty() {
        show(rt, b" named");
    }
    for latch in net.latches() {
        match net.latch_named(latch.name.as_slice()) {
            Some(place) => show_count(rt, place as u64),
            None => show(rt, b" none"),
        }
    }
}

/// Shows the value of each gate where all signals are 0, and where all are 1.
pub(crate) fn show_values(rt: &HostRuntime, net: &Net) {
    let zeros = [false; 100];
    let ones = [true; 100];
    let size = net.size() as usize;
    if size > 100 {
        return show(rt, b" too large");
    }
    net.keeps();
    for gate in 0..net.gates().len() as u32 {
        show(rt, b" values ");
        show_bit(rt, net.eval_gate(gate, &zeros[..size]));
        show_bit(rt, net.eval_gate(gate, &ones[..size]));
    }
}

/// Shows the net, and for each of its inputs whether it is read.
fn show_reads(rt: &HostRuntime, net: &Net) {
    show(rt, b", cut");
    show_net(rt, net);
    show(rt, b" read ");
    net.keeps();
    for input in 0..net.inputs().len() as u32 {
        show_bit(rt, net.input_read(input));
    }
}

/// Shows the net without its first latch.
pub(crate) fn show_without_first(rt: &HostRuntime, net: &Net) {
    if net.latches().is_empty() {
        return;
    }
    let mut exposed = Ids::new(rt.alloc());
    if exposed.push(0).is_err() {
        return show(rt, b" no memory");
    }
    match net.cut(rt.alloc(), &exposed) {
        Ok(rest) => show_reads(rt, &rest),
        Err(_) => show(rt, b" no memory"),
    }
}
