//! Calls on words of many assignments.

use crate::pieces::show_numbers;
use crate::row_text::{number_of, show, split_at};
use aig::Aig;
use aig::lane_eval::{and_block, signatures};
use std::rt::HostRuntime;
use std::simd::u64x8;

/// The numbers that words spell, but for what memory can't be had for.
pub(crate) fn numbers_of(rt: &HostRuntime, words: &[u8]) -> Vec<u64> {
    let mut numbers = Vec::new(rt.alloc());
    let mut rest = words;
    for _ in 0..words.len() {
        let (word, later) = split_at(b' ', rest);
        rest = later;
        if !word.is_empty() {
            let _ = numbers.push(number_of(word).unwrap_or(0));
        }
    }
    numbers
}

/// Shows the words of each node's block, eight words being given for each variable.
pub(crate) fn show_blocks(rt: &HostRuntime, graph: &Aig, words: &[u64]) {
    if words.len() != 8 * (graph.vars() as usize) {
        return show(rt, b" not a row");
    }
    let Ok(table) = signatures(rt.alloc(), graph, words) else {
        return show(rt, b" no memory");
    };
    for node in 0..graph.size() {
        show_numbers(rt, b" (", &table.block(node));
        show(rt, b" )");
    }
}

/// Shows the and of two blocks of eight words each, behind two bits that say which of them is complemented.
pub(crate) fn show_both(rt: &HostRuntime, numbers: &[u64]) {
    if numbers.len() != 18 {
        return show(rt, b" not a row");
    }
    let l = u64x8::from_slice(&numbers[2..10]);
    let r = u64x8::from_slice(&numbers[10..18]);
    let both = and_block(l, r, numbers[0] == 1, numbers[1] == 1);
    show_numbers(rt, b"", &both.to_array());
}
