//! Shows the rows of `text_rows` and of `call_rows`, and then runs `sec` once for each row of the file `rows`, and prints the row, the
//! report and the status.
//!
//! A row is the words of a run, of which `''` is the empty one, then a bar and what the run finds in the files `a`, `b`, `s` and
//! `c`, as many as there are: parts with `+` between them, each a file of this folder, or FILE*N for N times the file, or FILE:N for
//! its first N bytes, or `-` for nothing. Behind a second bar stands how the run is done in place of once: `slowly`, with one byte a
//! read; `reads`, with each of the first seven reads failing in turn, and then once more over the same shelf; `writes`, once, and then
//! with each write that is shorter than the report. A row that begins with `#` is a remark.
#![tactic(auto)]

mod failures;
mod one_run;

use failures::{show_failing_reads, show_short_writes, show_slow_reads};
use one_run::show_run;
use std::rt::HostRuntime;
use std::str;
use text_rows::row_text::{file_of, run_words, shelf_of, show, split_at};

/// Does the run in one of the ways.
fn show_way(rt: &HostRuntime, words: &[String], files: &[u8], way: &str) {
    match way {
        "reads" => show_failing_reads(rt, words, files),
        "writes" => show_short_writes(rt, words, files),
        "slowly" => show_slow_reads(rt, words, files),
        _ => {
            show_run(rt, words, &mut shelf_of(rt, files, 0), None, 0);
        }
    }
}

/// Shows the row and what comes of it, once or in each of the ways behind the second bar; nothing of a remark.
fn show_row(rt: &HostRuntime, row: &[u8]) {
    if let [] | [b'#', ..] = row {
        return;
    }
    show(rt, row);
    show(rt, b"\n");
    let (line, told) = split_at(b'|', row);
    let (files, ways) = split_at(b'|', told);
    let words = run_words(rt, line);
    let mut rest: &[u8] = if ways.is_empty() { b"once" } else { ways };
    for _ in 0..row.len() {
        let (way, later) = split_at(b' ', rest);
        if !way.is_empty() {
            show_way(
                rt,
                words.as_slice(),
                files,
                str::from_utf8(way).unwrap_or(""),
            );
        }
        rest = later;
    }
    show(rt, b"\n");
}

fn main(rt: HostRuntime) {
    text_rows::show_rows(&rt);
    call_rows::show_rows(&rt);
    let Some(rows) = file_of(&rt, "rows") else {
        return show(&rt, b"no rows\n");
    };
    let mut rest = rows.as_slice();
    for _ in 0..rows.len() {
        let (row, later) = split_at(b'\n', rest);
        show_row(&rt, row);
        rest = later;
    }
}
