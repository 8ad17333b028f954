//! What a text in the AIGER formats spells, in words.

use crate::pieces::{show_numbers, show_words};
use crate::row_text::{show, show_count, show_word};
use aiger_read::aiger_file::{AigerError, AigerFile, AigerKind, read_file};
use aiger_read::aiger_records::Record;
use sec_base::MAX_FILE_BYTES;
use std::rt::HostRuntime;

fn word_of(kind: AigerKind) -> &'static [u8] {
    match kind {
        AigerKind::BadHeader => b"BadHeader",
        AigerKind::Properties => b"Properties",
        AigerKind::TooMany => b"TooMany",
        AigerKind::BadLine => b"BadLine",
        AigerKind::BadLiteral => b"BadLiteral",
        AigerKind::TwoDrivers => b"TwoDrivers",
        AigerKind::BadReset => b"BadReset",
        AigerKind::BadDelta => b"BadDelta",
        AigerKind::BadSymbol => b"BadSymbol",
        AigerKind::Undriven => b"Undriven",
        AigerKind::DuplicateName => b"DuplicateName",
        AigerKind::Loop => b"Loop",
    }
}

/// Shows the records, a gate by its operands in both forms, and the names.
fn show_file(rt: &HostRuntime, file: &AigerFile) {
    for found in file.records.as_slice() {
        match *found {
            Record::Input { literal } => show_numbers(rt, b" input", &[literal]),
            Record::Latch {
                literal,
                next,
                reset,
            } => show_numbers(rt, b" latch", &[literal, next, reset]),
            Record::Output { literal } => show_numbers(rt, b" output", &[literal]),
            Record::Gate {
                literal,
                left,
                right,
            } => show_numbers(rt, b" gate", &[literal, left, right]),
            Record::Packed {
                literal,
                first,
                second,
            } => {
                let left = literal.saturating_sub(first);
                show_numbers(rt, b" gate", &[literal, left, left.saturating_sub(second)]);
            }
        }
    }
    show(rt, b" names");
    show_words(rt, &file.symbols.names);
}

/// Shows what the text spells, or its first fault.
pub(crate) fn show_text(rt: &HostRuntime, text: &[u8]) {
    if text.len() > MAX_FILE_BYTES as usize {
        return show(rt, b" too long");
    }
    match read_file(rt.alloc(), text) {
        Ok(file) => show_file(rt, &file),
        Err(AigerError::At { place, kind }) => {
            show(rt, b" record");
            show_count(rt, place as u64);
            show_word(rt, word_of(kind));
        }
        Err(AigerError::NoMemory) => show(rt, b" no memory"),
    }
}
