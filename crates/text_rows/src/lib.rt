//! Shows what the rows of nine files tell of texts of circuits, and of functions. A row of a text is a name, a tab and a text, with marks for what a row can't hold
//! as it is (`row_text::text_of`).
//!
//! Of what a text spells: the lines and tokens of each text of `lines`, what each text of `designs` spells in BLIF, or its fault, the
//! values of the covers of each text of `covers`, and what each text of `aiger` spells in the AIGER formats, or its first fault; `@` is
//! 4,096 letters. What is expected of these rows, in `stdout`, is what second readers tell of them: `tests/blif-rows`, `tests/aiger-rows`.
//!
//! Of small designs in BLIF, where `@` is 4,093 letters. `walks`: the signals that the flat statements drive (`g` gates, `l` latches, `p`
//! ports), or the walk's fault. `wires`: the fault of drivers and clocks. `nets`: the net, or the design's fault. `cuts`: the net, its
//! latches looked up by name, the value of each gate where all signals are 0 and where all are 1, and the net without its first latch,
//! with the inputs that are read. Behind the rows stands a net that is made by hand.
//!
//! `functions`: a name, the definitions of a small graph, and what is asked of it, parted by `:`.
#![tactic(auto)]

mod aiger_files;
mod covers;
mod cuts;
mod designs;
mod faults;
mod functions;
mod lines;
mod made;
mod nets;
mod pieces;
pub mod row_text;
mod walks;

ghost use Rattle.std.specs.Prelude.{◌≤◌, length};

use crate::row_text::{file_of, show, split_at, text_of};
use aiger_files::show_text;
use blif_read::{Design, read_design};
use covers::show_covers;
use designs::{show_error, show_models};
use functions::show_function;
use lines::show_lines;
use made::show_made;
use nets::show_flattened;
use sec_base::MAX_FILE_BYTES;
use std::rt::HostRuntime;
use walks::show_walk;

/// What a row's text, or its design, is asked for.
enum Asked {
    Lines,
    Design,
    Covers,
    Aiger,
    /// The walk, or with `wires` the fault of its drivers and clocks.
    Walk { wires: bool },
    /// The net, and with `cut` what is found in it and the net without its first latch.
    Net { cut: bool },
    Function,
}

fn show_of_design(rt: &HostRuntime, asked: &Asked, design: &Design) {
    match asked {
        Asked::Covers => show_covers(rt, design),
        Asked::Walk { wires } => show_walk(rt, design, *wires),
        Asked::Net { cut } => show_flattened(rt, design, *cut),
        _ => show_models(rt, design.models.as_slice()),
    }
}

/// Shows what is asked of a design that the text spells.
fn show_read(rt: &HostRuntime, asked: &Asked, text: &[u8])
    requires { length text.now ≤ 16777216 }
{
    match read_design(rt.alloc(), text) {
        Ok(design) => show_of_design(rt, asked, &design),
        Err(error) => match asked {
            Asked::Design => show_error(rt, &error),
            _ => show(rt, b" no design"),
        },
    }
}

/// Shows what is told of the text.
fn show_told(rt: &HostRuntime, asked: &Asked, text: &[u8]) {
    if text.len() > MAX_FILE_BYTES as usize {
        return show(rt, b" too long");
    }
    match asked {
        Asked::Lines => show_lines(rt, text),
        Asked::Aiger => show_text(rt, text),
        _ => show_read(rt, asked, text),
    }
}

/// Shows a name and what is told behind it, where `@` in a text stands for the long name.
fn show_row(rt: &HostRuntime, asked: &Asked, row: &[u8], long: &[u8]) {
    let is_function = matches!(asked, Asked::Function);
    let (name, marks) = split_at(if is_function { b':' } else { b'\t' }, row);
    show(rt, name);
    show(rt, b":");
    if is_function {
        show_function(rt, marks);
    } else {
        show_told(rt, asked, text_of(rt.alloc(), marks, long).bytes());
    }
    show(rt, b"\n");
}

/// Shows what each row of the file tells, one on a line.
fn show_file(rt: &HostRuntime, asked: &Asked, path: &str, long: &[u8]) {
    let Some(rows) = file_of(rt, path) else {
        return show(rt, b"no rows\n");
    };
    let mut rest = rows.as_slice();
    for _ in 0..rows.len() {
        let (row, later) = split_at(b'\n', rest);
        if !row.is_empty() {
            show_row(rt, asked, row, long);
        }
        rest = later;
    }
}

/// Shows what the rows of each file tell, and behind those of designs a net that is made by hand.
pub fn show_rows(rt: &HostRuntime) {
    let text = [b'n'; 4_096];
    show_file(rt, &Asked::Lines, "lines", &text);
    show_file(rt, &Asked::Design, "designs", &text);
    show_file(rt, &Asked::Covers, "covers", &text);
    show_file(rt, &Asked::Aiger, "aiger", &text);
    let part = [b'x'; 4_093];
    show_file(rt, &Asked::Walk { wires: false }, "walks", &part);
    show_file(rt, &Asked::Walk { wires: true }, "wires", &part);
    show_file(rt, &Asked::Net { cut: false }, "nets", &part);
    show_file(rt, &Asked::Net { cut: true }, "cuts", &part);
    show_made(rt);
    show_file(rt, &Asked::Function, "functions", &part);
}
