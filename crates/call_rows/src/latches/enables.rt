//! What is told of the latches of a netlist.

ghost use Rattle.std.specs.Prelude.{◌<◌, ◌≤◌, length};

use crate::latches::nets::net_of;
use flat_net::Net;
use latch_kinds::unate_enable::{LatchCone, RecoverError, Recovery, cone, recover};
use sec_base::MAX_CONFLICTS;
use std::rt::HostRuntime;
use text_rows::row_text::{show, show_count, show_word};

/// Shows the netlist, and then a line of the cone of each latch and two of its enable.
pub(crate) fn show_row(rt: &HostRuntime, row: &[u8]) {
    show(rt, row);
    show(rt, b"\n");
    match net_of(rt.alloc(), row) {
        Some(net) => show_latches(rt, &net),
        None => show(rt, b"no net\n"),
    }
}

fn show_latches(rt: &HostRuntime, net: &Net) {
    net.keeps();
    for latch in 0..net.latches().len() as u32 {
        show_cone(rt, net, latch);
        show_enable(rt, net, latch, 0);
        show_enable(rt, net, latch, 20_000);
    }
}

/// Shows the names of the inputs and of the latches of a cone.
fn show_parts(rt: &HostRuntime, net: &Net, found: &LatchCone) {
    show(rt, b" inputs");
    for i in found.inputs.as_slice() {
        if let Some(input) = net.inputs().get(*i as usize) {
            show_word(rt, input.name.as_slice());
        }
    }
    show(rt, b" latches");
    for j in found.latches.as_slice() {
        if let Some(other) = net.latches().get(*j as usize) {
            show_word(rt, other.name.as_slice());
        }
    }
    show(rt, b"\n");
}

/// Shows the names of the inputs and of the other latches of the latch's cone.
fn show_cone(rt: &HostRuntime, net: &Net, latch: u32)
    requires { latch < length net.now.latches }
{
    show(rt, net.latches()[latch as usize].name.as_slice());
    match cone(rt.alloc(), net, latch) {
        Ok(found) => show_parts(rt, net, &found),
        Err(_) => show(rt, b" no memory\n"),
    }
}

/// Shows what is found out about the latch.
fn show_enable(rt: &HostRuntime, net: &Net, latch: u32, conflicts: u32)
    requires latch { latch < length net.now.latches }
    requires conflicts { conflicts ≤ MAX_CONFLICTS }
{
    show(rt, net.latches()[latch as usize].name.as_slice());
    show(rt, b" conflicts");
    show_count(rt, conflicts as u64);
    show_answer(rt, &recover(rt.alloc(), net, latch, conflicts));
    show(rt, b"\n");
}

/// Shows what is found out about a latch; of one that isn't unate the values with which it falls.
fn show_answer(rt: &HostRuntime, answer: &Result<Recovery, RecoverError>) {
    match answer {
        Ok(Recovery::Plain) => show(rt, b" plain"),
        Ok(Recovery::Enabled) => show(rt, b" enabled"),
        Ok(Recovery::NotUnate(bits)) => {
            show(rt, b" not-unate");
            for bit in bits.as_slice() {
                show(rt, if *bit { b" 1" } else { b" 0" });
            }
        }
        Ok(Recovery::Limit(proof)) => {
            show(rt, b" limit with chains");
            show_count(rt, proof.log.len() as u64);
        }
        Err(RecoverError::TooLarge) => show(rt, b" too large"),
        Err(RecoverError::NoMemory) => show(rt, b" no memory"),
    }
}
