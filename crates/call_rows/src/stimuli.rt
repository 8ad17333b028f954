//! Stimuli, read and written again.

use sec_base::MAX_FILE_BYTES;
use std::rt::HostRuntime;
use text_rows::row_text::{show, show_count};
use witness_report::{StimError, Stimulus, read_stimulus, reads_back, write_stimulus};

/// Shows the stimulus as it is written, or its faulty line.
pub(crate) fn show_stimulus(rt: &HostRuntime, text: &[u8]) {
    if text.len() > MAX_FILE_BYTES as usize {
        return show(rt, b"too long\n");
    }
    match read_stimulus(rt.alloc(), text) {
        Ok(stimulus) => show_written(rt, &stimulus),
        Err(StimError::BadHeader { line }) => show_fault(rt, b"no header in line", line),
        Err(StimError::BadRow { line }) => show_fault(rt, b"no row in line", line),
        Err(StimError::NoMemory) => show(rt, b"lost\n"),
    }
}

fn show_fault(rt: &HostRuntime, fault: &[u8], line: u32) {
    show(rt, fault);
    show_count(rt, line as u64);
    show(rt, b"\n");
}

fn show_written(rt: &HostRuntime, stimulus: &Stimulus) {
    reads_back(stimulus);
    match write_stimulus(rt.alloc(), stimulus) {
        Ok(text) => show(rt, text.as_slice()),
        Err(_) => show(rt, b"lost\n"),
    }
}
