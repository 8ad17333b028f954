//! Calls on words of literals.

ghost use Rattle.std.specs.Prelude.{◌<◌, length, All, IsTrue};

use crate::functions::sketch::Sketch;
use crate::row_text::{show, split_at};
use aig::{Aig, Lit};
use std::rt::HostRuntime;
use word_sums::{Words, same_words};

/// How many terms a difference has at most.
const TERMS: usize = 1_000;

/// Shows what is told of two words: the literals that words name, the first half of them and the other half.
pub(crate) fn show_same_words(rt: &HostRuntime, sketch: &Sketch, given: &[u8]) {
    let lits = lits_of(rt, sketch, given);
    let (left, right) = lits.as_slice().split_at(lits.len() / 2);
    show_told(rt, &sketch.graph, left, right);
}

/// The literals that the words name, but for what memory can't be had for.
fn lits_of(rt: &HostRuntime, sketch: &Sketch, words: &[u8]) -> Vec<Lit> {
    let mut lits = Vec::new(rt.alloc());
    let mut rest = words;
    for _ in 0..words.len() {
        let (word, later) = split_at(b' ', rest);
        rest = later;
        if !word.is_empty() {
            let number = sketch.literal(word).min(u32::MAX as u64);
            let _ = lits.push(Lit(number as u32));
        }
    }
    lits
}

/// Shows what is told of the words, if they are of one length and of the graph.
fn show_told(rt: &HostRuntime, graph: &Aig, left: &[Lit], right: &[Lit]) {
    graph.keeps();
    let size = 2 * graph.size();
    if left.len() != right.len() {
        return show(rt, b" not a row");
    }
    if !are_below(left, size) {
        return show(rt, b" not a row");
    }
    if !are_below(right, size) {
        return show(rt, b" not a row");
    }
    match same_words(rt.alloc(), graph, left, right, TERMS) {
        Ok(Words::Same) => show(rt, b" same"),
        Ok(Words::Differ(bits)) => show_bits(rt, bits.as_slice()),
        Ok(Words::Open) => show(rt, b" open"),
        Err(_) => show(rt, b" no memory"),
    }
}

/// Shows the bits of the variables, in their order.
fn show_bits(rt: &HostRuntime, bits: &[bool]) {
    show(rt, b" differ at ");
    for bit in bits {
        show(rt, if *bit { b"1" } else { b"0" });
    }
}

/// Whether the literals are below the number.
fn are_below(lits: &[Lit], number: u32) -> bool
    ensures { IsTrue result → All (λ l. l.0 < number) lits.now }
{
    for i in 0..lits.len() {
        if lits[i].0 >= number {
            return false;
        }
    }
    true
}
