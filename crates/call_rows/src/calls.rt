//! Calls of graphs and of simulations, and stimuli read and written.

use crate::circuits::{net_in, show_graph};
use crate::runs::show_ones;
use crate::stimuli::show_stimulus;
use std::rt::HostRuntime;
use std::str;
use text_rows::row_text::{file_of, show, split_at};

/// Shows what comes of the call on the file's text.
fn show_call(rt: &HostRuntime, call: &str, text: &[u8], rows: &[u8]) {
    if call == "stimulus" {
        return show_stimulus(rt, text);
    }
    let Some(net) = net_in(rt.alloc(), text) else {
        return show(rt, b"no net\n");
    };
    match call {
        "graph" => show_graph(rt, &net),
        "ones" => show_ones(rt, &net, rows),
        _ => show(rt, b"no call\n"),
    }
}

/// Shows the row and what comes of it; nothing of a remark.
pub(crate) fn show_row(rt: &HostRuntime, row: &[u8]) {
    if let [b'#', ..] = row {
        return;
    }
    show(rt, row);
    show(rt, b"\n");
    let (call, words) = split_at(b' ', row);
    let (path, rows) = split_at(b' ', words);
    let call = str::from_utf8(call).unwrap_or("");
    match file_of(rt, str::from_utf8(path).unwrap_or("")) {
        Some(text) => show_call(rt, call, text.as_slice(), rows),
        None => show(rt, b"lost\n"),
    }
    show(rt, b"\n");
}
