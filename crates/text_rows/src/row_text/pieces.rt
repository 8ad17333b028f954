//! Pieces of what a row tells, written to the standard output.

use base_shelves::{FileShelf, fetch};
use sec_base::{FileText, MAX_FILE_BYTES};
use std::rt::HostRuntime;

/// Writes the bytes.
pub fn show(rt: &HostRuntime, bytes: &[u8]) {
    let _ = rt.write_all(bytes);
}

/// Writes the byte.
pub fn show_byte(rt: &HostRuntime, byte: u8) {
    show(rt, &[byte]);
}

/// Writes the number in decimal digits.
pub fn show_number(rt: &HostRuntime, number: u64) {
    let _ = rt.print(number);
}

/// Writes a blank and the word.
pub fn show_word(rt: &HostRuntime, word: &[u8]) {
    show(rt, b" ");
    show(rt, word);
}

/// Writes a blank and the number.
pub fn show_count(rt: &HostRuntime, number: u64) {
    show(rt, b" ");
    show_number(rt, number);
}

/// Writes the bit as a digit.
pub fn show_bit(rt: &HostRuntime, bit: bool) {
    show(rt, if bit { b"1" } else { b"0" });
}

/// The file at the path; none where it isn't read.
pub fn file_of(rt: &HostRuntime, path: &str) -> Option<FileText> {
    fetch(rt.alloc(), &mut FileShelf::new(rt), path, MAX_FILE_BYTES).ok()
}
