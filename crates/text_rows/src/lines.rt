//! The lines of a text and their tokens.

ghost use Rattle.std.specs.Prelude.{◌≤◌, length};

use crate::pieces::show_marked;
use crate::row_text::{show, show_number};
use blif_read::blif_lines::{Lines, RawLine, tokens_of};
use std::rt::HostRuntime;

fn show_tokens(rt: &HostRuntime, tokens: &[&[u8]]) {
    let mut before: &[u8] = b"";
    for token in tokens {
        show_marked(rt, before, token);
        before = b",";
    }
}

/// Shows what parts the line from the one before, its number, and its tokens.
fn show_line(rt: &HostRuntime, before: &[u8], line: &RawLine) {
    show(rt, before);
    show_number(rt, line.number as u64);
    show(rt, b":");
    match tokens_of(rt.alloc(), line.bytes.as_slice()) {
        Ok(tokens) => show_tokens(rt, tokens.as_slice()),
        Err(_) => show(rt, b" no-memory"),
    }
}

/// Shows the lines of the text: the number of each and its tokens.
pub(crate) fn show_lines(rt: &HostRuntime, text: &[u8])
    requires { length text.now ≤ 16777216 }
{
    let mut lines = Lines::new(text);
    let mut before: &[u8] = b" ";
    for _ in 0..=text.len() {
        match lines.next_line(rt.alloc()) {
            Ok(Some(line)) => show_line(rt, before, &line),
            Ok(None) => return,
            Err(_) => return show(rt, b" no-memory"),
        }
        before = b";";
    }
}
