//! Clauses and logs, read from a row. What memory can't be had for is missing there.

use crate::words::size_of;
use proof_check::{Chain, Clause, Clauses, Literal, Literals, Log, Step};
use sec_base::Seq;
use std::rt::HostRuntime;
use text_rows::row_text::split_at;

/// The literal of a DIMACS number, if it is one.
fn literal_of(word: &[u8]) -> Option<Literal> {
    let (digits, is_positive) = match word {
        [b'-', digits @ ..] => (digits, false),
        digits => (digits, true),
    };
    let variable = size_of(digits);
    if variable == 0 || variable > 1_000 {
        return None;
    }
    Some(Literal::new(variable, is_positive))
}

/// The literals of a text: its words that are some.
pub(crate) fn literals_of(rt: &HostRuntime, text: &[u8]) -> Literals {
    let mut literals = Seq::new(rt.alloc());
    let mut rest = text;
    for _ in 0..text.len() {
        let (word, later) = split_at(b' ', rest);
        rest = later;
        if let Some(literal) = literal_of(word) {
            let _ = literals.push(literal);
        }
    }
    literals
}

/// The clauses of a text, each with a comma behind it; what is none is left out.
pub(crate) fn clauses_of(rt: &HostRuntime, text: &[u8]) -> Clauses {
    let mut clauses = Seq::new(rt.alloc());
    let mut rest = text;
    for _ in 0..text.len() {
        if !rest.is_empty() {
            let (clause, later) = split_at(b',', rest);
            rest = later;
            if let Ok(clause) = Clause::new(rt.alloc(), &literals_of(rt, clause)) {
                let _ = clauses.push(clause);
            }
        }
    }
    clauses
}

/// The chain of a text: the number of its first clause and then pairs of a pivot and a clause's number.
fn chain_of(rt: &HostRuntime, text: &[u8]) -> Chain {
    let (start, pairs) = split_at(b' ', text);
    let mut steps = Seq::new(rt.alloc());
    let mut rest = pairs;
    for _ in 0..pairs.len() {
        let (pivot, behind) = split_at(b' ', rest);
        let (clause, later) = split_at(b' ', behind);
        rest = later;
        if !clause.is_empty() {
            let step = Step {
                pivot: size_of(pivot),
                clause: size_of(clause),
            };
            let _ = steps.push(step);
        }
    }
    Chain {
        start: size_of(start),
        steps,
    }
}

/// The log of a text: chains with commas between.
pub(crate) fn log_of(rt: &HostRuntime, text: &[u8]) -> Log {
    let mut log = Seq::new(rt.alloc());
    let mut rest = text;
    for _ in 0..text.len() {
        let (chain, later) = split_at(b',', rest);
        rest = later;
        if !chain.is_empty() {
            let _ = log.push(chain_of(rt, chain));
        }
    }
    log
}
