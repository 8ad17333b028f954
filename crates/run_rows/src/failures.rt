//! Runs with a read that fails or gives little, or a write that is cut short.

use crate::one_run::show_run;
use std::rt::HostRuntime;
use text_rows::row_text::{shelf_of, show, show_count};

/// The exit status of a read fault.
const READ_FAULT: u8 = 6;

/// Runs the words with each of the first seven reads failing. Each file takes two reads, the second of which gives nothing.
pub(crate) fn show_failing_reads(rt: &HostRuntime, words: &[String], files: &[u8]) {
    for fails in 1u32..8 {
        show_failing_read(rt, words, files, fails);
    }
}

/// Runs the words with this read failing, and where that ends the run, once more over the same shelf.
fn show_failing_read(rt: &HostRuntime, words: &[String], files: &[u8], fails: u32) {
    show(rt, b"read");
    show_count(rt, u64::from(fails));
    show(rt, b" fails\n");
    let mut shelf = shelf_of(rt, files, fails);
    if show_run(rt, words, &mut shelf, None, 0).code == READ_FAULT {
        show(rt, b"once more\n");
        show_run(rt, words, &mut shelf, None, 0);
    }
}

/// Runs the words with one byte a read.
pub(crate) fn show_slow_reads(rt: &HostRuntime, words: &[String], files: &[u8]) {
    let mut shelf = shelf_of(rt, files, 0);
    shelf.set_most(1);
    show(rt, b"one byte a read\n");
    show_run(rt, words, &mut shelf, None, 0);
}

/// Runs the words, and then with a write that takes each number of bytes from none on, as long as that is less than the report.
pub(crate) fn show_short_writes(rt: &HostRuntime, words: &[String], files: &[u8]) {
    let mut shelf = shelf_of(rt, files, 0);
    let whole = show_run(rt, words, &mut shelf, None, 0).taken;
    for keep in 0..whole {
        show(rt, b"the write takes");
        show_count(rt, keep as u64);
        show(rt, b"\n");
        show_run(rt, words, &mut shelf, Some(1), keep);
    }
}
