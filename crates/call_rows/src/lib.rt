//! Makes single calls of the crates below the jobs, and shows what comes of them. Each file has rows of one kind. Of the base's tables,
//! lists, shelves and sinks a row is a name, a tab and words.
//!
//! `names`: `+w` adds the name w, `=w` numbers it, `?w` looks it up; behind stand the names in their order.
//! `places`: `pq` numbers the pair of the digits p and q; behind stand the pairs in their order, and a copy of the
//! lists of their first and second digits.
//! `shelves`: `!n` has read n fail, `w=n` puts a file w of n bytes, `~n` lets each later read give n bytes at most, and behind these
//! `w<n` fetches w of at most n bytes.
//! `sinks`: the room, the write that fails or 0, what it keeps, and the piece that is written.
//! `files`: `w<n` fetches the real file w of at most n bytes.
//! `cells`: the cells of a small circuit, `i` an input, `d2` a latch that takes over signal 2, `n0,1` the NAND of two signals; behind
//! them stand the depth of the last one and whether it is settled in each of the first four cycles, by the slow programs.
//! `clauses`: `KIND;NAME;CLAUSES;MORE`. Each clause has a comma behind it, and its literals are those of DIMACS. What more stands there is
//! a log, the steps of a resolver, or the variables and the conflicts of a search.
//! `calls`: `graph A` is the depth of each output of the circuit, the weight of its unfolding, and a cycle of latches; `ones A ROW..` the
//! values and the marks of the outputs in each cycle, where each latch powers up with 1; `stimulus S` the stimulus as it is written
//! again, or its faulty line. A and S are files of this folder. A row that begins with `#` is a remark.
//! `enables`: the cone of each latch of a netlist, and what is found out about its enable at 0 conflicts and at 20,000.
//! `blocks`: the coarsest inductive partition of the latches of two netlists, a line for each block.
//! `classes`: the class of each enabled latch of two netlists, in the order in which they are given classes, and what tells each two classes
//! apart; and so of `limited`, where no query has any conflicts. Here a row is a netlist in BLIF, or two with `;` between them, with `|` in
//! place of each line feed; inputs at one position are one input.
#![tactic(auto)]

mod calls;
mod cells;
mod checks;
pub mod circuit_samples;
mod circuits;
mod formulas;
mod latches;
mod row_parts;
mod runs;
mod searches;
mod shelves;
mod stimuli;
mod tables;
mod words;

use cells::show_cells;
use latches::{show_blocks, show_classes, show_enables};
use sec_base::DEFAULT_CONFLICTS;
use shelves::{show_files, show_shelf, show_sink};
use std::rt::HostRuntime;
use tables::{show_names, show_places};
use text_rows::row_text::{file_of, show, split_at};

/// What the rows of a file tell of.
enum Asked {
    Names,
    Places,
    Shelves,
    Sinks,
    Cells,
    Files,
    Clauses,
    Calls,
    Enables,
    Blocks,
    Classes,
    Limited,
}

/// Shows a name, and what the words behind it tell.
fn show_named(rt: &HostRuntime, asked: &Asked, row: &[u8]) {
    let (name, words) = split_at(b'\t', row);
    show(rt, name);
    show(rt, b":");
    match asked {
        Asked::Names => show_names(rt, words),
        Asked::Places => show_places(rt, words),
        Asked::Shelves => show_shelf(rt, words),
        Asked::Sinks => show_sink(rt, words),
        Asked::Cells => show_cells(rt, words),
        _ => show_files(rt, words),
    }
    show(rt, b"\n");
}

fn show_row(rt: &HostRuntime, asked: &Asked, row: &[u8]) {
    match asked {
        Asked::Clauses => formulas::show_row(rt, row),
        Asked::Calls => calls::show_row(rt, row),
        Asked::Enables => show_enables(rt, row),
        Asked::Blocks => show_blocks(rt, row),
        Asked::Classes => show_classes(rt, row, DEFAULT_CONFLICTS),
        Asked::Limited => show_classes(rt, row, 0),
        _ => show_named(rt, asked, row),
    }
}

/// Shows what each row of the file tells.
fn show_file(rt: &HostRuntime, asked: &Asked, path: &str) {
    let Some(rows) = file_of(rt, path) else {
        return show(rt, b"no rows\n");
    };
    let mut rest = rows.as_slice();
    for _ in 0..rows.len() {
        let (row, later) = split_at(b'\n', rest);
        if !row.is_empty() {
            show_row(rt, asked, row);
        }
        rest = later;
    }
}

/// Shows what the rows of each file tell.
pub fn show_rows(rt: &HostRuntime) {
    show_file(rt, &Asked::Names, "names");
    show_file(rt, &Asked::Places, "places");
    show_file(rt, &Asked::Shelves, "shelves");
    show_file(rt, &Asked::Sinks, "sinks");
    show_file(rt, &Asked::Files, "files");
    show_file(rt, &Asked::Cells, "cells");
    show_file(rt, &Asked::Clauses, "clauses");
    show_file(rt, &Asked::Calls, "calls");
    show_file(rt, &Asked::Enables, "enables");
    show_file(rt, &Asked::Blocks, "blocks");
    show_file(rt, &Asked::Classes, "classes");
    show_file(rt, &Asked::Limited, "limited");
}
