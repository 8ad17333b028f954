//! One run.

use base_shelves::{MemShelf, MemSink};
use sec_run::run;
use std::rt::HostRuntime;
use text_rows::row_text::{show, show_count};

/// How many bytes of a report are taken.
const ROOM: usize = 4_000;

/// The exit status of a write fault, where a front of the report is taken.
const WRITE_FAULT: u8 = 7;

/// How a run ended: its status, and how many bytes were taken.
#[derive(Clone, Copy)]
pub(crate) struct Ended {
    pub code: u8,
    pub taken: usize,
}

/// Runs the words over the shelf, and shows the report and how the run ends. Where a write is told to fail, it takes so many bytes at
/// most.
pub(crate) fn show_run(
    rt: &HostRuntime,
    words: &[String],
    shelf: &mut MemShelf,
    fails: Option<u32>,
    keep: usize,
) -> Ended {
    match MemSink::new(rt.alloc(), ROOM, fails, keep) {
        Ok(mut sink) => show_ended(rt, words, shelf, &mut sink),
        Err(_) => {
            show(rt, b"lost\n");
            Ended { code: 0, taken: 0 }
        }
    }
}

/// Runs the words, and shows what is taken, the exit status, and how many proofs there are of pairs that met the limit.
fn show_ended(
    rt: &HostRuntime,
    words: &[String],
    shelf: &mut MemShelf,
    sink: &mut MemSink,
) -> Ended {
    let status = run(rt.alloc(), words, shelf, sink);
    let code = status.code();
    show(rt, sink.taken());
    if code == WRITE_FAULT {
        show(rt, b"|\n");
    }
    show(rt, b"status");
    show_count(rt, u64::from(code));
    show(rt, b" proofs");
    show_count(rt, status.proofs.len() as u64);
    show(rt, b"\n");
    Ended {
        code,
        taken: sink.taken().len(),
    }
}
