//! Small circuits of the slow programs.

use crate::circuit_samples::cells::{Cell, depth, is_settled, read_earlier};
use crate::words::size_of;
use std::rt::HostRuntime;
use text_rows::row_text::{show, show_bit, show_count, split_at};

/// The cell that a word spells: `i` is an input, `d` before a number a latch that takes over that signal, and `n` before two numbers,
/// with a comma between them, their NAND.
fn cell_of(word: &[u8]) -> Option<Cell> {
    match word {
        [b'i'] => Some(Cell::Input),
        [b'd', from @ ..] => Some(Cell::Delay(size_of(from))),
        [b'n', both @ ..] => {
            let (left, right) = split_at(b',', both);
            Some(Cell::Nand(size_of(left), size_of(right)))
        }
        _ => None,
    }
}

/// Shows the depth of the last cell, and whether it is settled in each of the first four cycles.
fn show_last(rt: &HostRuntime, cells: &[Cell]) {
    if cells.is_empty() || cells.len() > 100 || !read_earlier(cells) {
        return show(rt, b" reads on");
    }
    let last = (cells.len() - 1) as u32;
    show(rt, b" depth");
    show_count(rt, depth(cells, last) as u64);
    show(rt, b", settled ");
    for cycle in 0..4 {
        show_bit(rt, is_settled(cells, last, cycle));
    }
}

/// Shows what the slow programs tell of the last signal of the circuit that the words spell.
pub(crate) fn show_cells(rt: &HostRuntime, words: &[u8]) {
    let mut cells = Vec::new(rt.alloc());
    let mut rest = words;
    for _ in 0..words.len() {
        let (word, later) = split_at(b' ', rest);
        rest = later;
        if let Some(cell) = cell_of(word) {
            let _ = cells.push(cell);
        }
    }
    show_last(rt, cells.as_slice());
}
