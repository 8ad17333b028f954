//! Calls of the graph, of tables and signatures, of clauses and of decisions.

mod calls;
mod decisions;
mod lanes;
mod sketch;
mod sums;
mod sweeps;

use crate::row_text::{show, split_at};
use calls::show_call;
use sketch::sketched;
use std::rt::HostRuntime;

/// Shows what a call answers on a small graph. The definitions of the graph and the call are parted by `:`.
pub(crate) fn show_function(rt: &HostRuntime, row: &[u8]) {
    let (definitions, call) = split_at(b':', row);
    match sketched(rt.alloc(), definitions) {
        Ok(sketch) => show_call(rt, &sketch, call),
        Err(_) => show(rt, b" no memory"),
    }
}
