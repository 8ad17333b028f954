//! Runs of obligations whose names count on by one: guesses at words. No clause says which.

use crate::obligation::Obligation;
use crate::outcome::{Aig, NoMemory, PairName, Query};
use aig::{Lit, MAX_TABLE_VARIABLES, Node};
use std::alloc::Global;
use swept_queries::{Known, SweptQueries};
use word_sums::MAX_WORD;

/// Obligations one behind the other, as many as `count`.
#[derive(Clone, Copy)]
pub(crate) struct Run {
    start: usize,
    pub(crate) count: usize,
    /// Whether the highest bit comes first.
    downward: bool,
}

/// The number in a name: its digits stand from `begin` up to `end`.
#[derive(Clone, Copy)]
struct Number {
    begin: usize,
    end: usize,
    value: u64,
}

/// A word is asked where so many of its bits are open.
const LEAST_OPEN: usize = 6;

/// How many nodes are rewritten at most, for all words together: each takes the whole graph.
const MOST_NODES: u32 = 200_000;

impl Run {
    /// The place of the obligation of this bit, the lowest being bit 0.
    pub(crate) fn place(&self, bit: usize) -> usize {
        if self.downward {
            self.start
                .wrapping_add(self.count)
                .wrapping_sub(bit)
                .wrapping_sub(1)
        } else {
            self.start.wrapping_add(bit)
        }
    }
}

/// Whether the graph looks like products: ands of two variables are many of its nodes, and more than twice the variables.
fn is_product(aig: &Aig) -> bool {
    let mut products = 0u32;
    for n in 0..aig.size() {
        if is_and_of_inputs(aig, n) {
            products = products.saturating_add(1);
        }
    }
    products / 2 >= aig.vars() && products >= aig.size() / 64
}

/// Whether the node is an and of two variables.
fn is_and_of_inputs(aig: &Aig, n: u32) -> bool {
    if n >= aig.size() {
        return false;
    }
    match aig.node(n) {
        Node::And(left, right) => is_input(aig, left) && is_input(aig, right),
        _ => false,
    }
}

/// Whether the literal is a variable.
fn is_input(aig: &Aig, l: Lit) -> bool {
    if l.is_complement() || l.node() >= aig.size() {
        return false;
    }
    match aig.node(l.node()) {
        Node::Input(_) => true,
        _ => false,
    }
}

/// For each obligation whether it has one query, of more than 16 variables and with two literals, in a graph that looks like products.
pub(crate) fn wide(alloc: Global, aig: &Aig, asked: &[Obligation]) -> Result<Vec<bool>, NoMemory> {
    let product = is_product(aig);
    let mut open = Vec::new(alloc);
    for i in 0..asked.len() {
        open.push(product && is_wide(asked[i].queries.as_slice()))?;
    }
    Ok(open)
}

/// The same of the queries of one.
fn is_wide(queries: &[Query]) -> bool {
    if queries.len() != 1 {
        return false;
    }
    let query = &queries[0];
    query.vars.len() > MAX_TABLE_VARIABLES && query.left != query.right
}

/// For each obligation whether the sweep left its first query open, in a graph that doesn't look so.
pub(crate) fn left_open(
    alloc: Global,
    aig: &Aig,
    asked: &[Obligation],
    swept: &SweptQueries,
) -> Result<Vec<bool>, NoMemory> {
    let other = !is_product(aig);
    let mut open = Vec::new(alloc);
    let mut place = 0usize;
    for i in 0..asked.len() {
        open.push(other && is_open(swept, place))?;
        place = place.saturating_add(asked[i].queries.len());
    }
    Ok(open)
}

/// The runs of up to 64 obligations, six of which or more are open, in a graph of so many nodes.
pub(crate) fn open_runs(
    alloc: Global,
    asked: &[Obligation],
    open: &[bool],
    nodes: u32,
) -> Result<Vec<Run>, NoMemory> {
    let mut runs = Vec::new(alloc);
    let mut next = 0usize;
    let mut room = MOST_NODES;
    for i in 0..asked.len() {
        if i >= next {
            let run = run_at(asked, i);
            next = i.saturating_add(run.count);
            if nodes <= room && is_open_run(open, &run) {
                room = room.saturating_sub(nodes);
                runs.push(run)?;
            }
        }
    }
    Ok(runs)
}

/// Whether the run is asked.
fn is_open_run(open: &[bool], run: &Run) -> bool {
    if run.count > MAX_WORD {
        return false;
    }
    let mut many = 0usize;
    for k in 0..run.count {
        if open.get(run.place(k)).copied().unwrap_or(false) {
            many = many.saturating_add(1);
        }
    }
    many >= LEAST_OPEN
}

/// Whether the sides of the query of this place were swept and are still two literals.
fn is_open(swept: &SweptQueries, place: usize) -> bool {
    if place >= swept.known.len() {
        return false;
    }
    match swept.known[place] {
        Known::Swept(sides) => sides.left != sides.right,
        _ => false,
    }
}

/// The longest run from this place on.
fn run_at(asked: &[Obligation], start: usize) -> Run {
    let up = count_from(asked, start, false);
    let down = count_from(asked, start, true);
    Run {
        start,
        count: up.max(down),
        downward: up < down,
    }
}

/// How many obligations from this place on have names that count up, or down, by one.
fn count_from(asked: &[Obligation], start: usize, downward: bool) -> usize {
    let mut count = 1usize;
    for i in start..asked.len() {
        if !goes_on(asked, i, downward) {
            return count;
        }
        count = count.saturating_add(1);
    }
    count
}

/// Whether the name of the obligation behind this one is the next.
fn goes_on(asked: &[Obligation], place: usize, downward: bool) -> bool {
    let behind = place.saturating_add(1);
    if place >= asked.len() || behind >= asked.len() {
        return false;
    }
    if downward {
        is_next(&asked[behind].name, &asked[place].name)
    } else {
        is_next(&asked[place].name, &asked[behind].name)
    }
}

/// Whether both are outputs, and the second one's name is the next.
fn is_next(first: &PairName, second: &PairName) -> bool {
    if let PairName::Output(name) = first {
        if let PairName::Output(other) = second {
            return follows(name.as_slice(), other.as_slice());
        }
    }
    false
}

/// Whether the second name is the first but for its last number, which is greater by one. At most one byte stands behind that number.
fn follows(first: &[u8], second: &[u8]) -> bool {
    let number = number_in(first);
    let next = number_in(second);
    let behind = first.len().saturating_sub(number.end);
    number.end > number.begin
        && number.begin == next.begin
        && number.value.wrapping_add(1) == next.value
        && behind == second.len().saturating_sub(next.end)
        && behind <= 1
        && are_alike(first, second, number.begin)
}

/// Whether the first bytes are the same.
fn are_alike(first: &[u8], second: &[u8], count: usize) -> bool {
    for i in 0..count {
        if first.get(i).copied().unwrap_or(0) != second.get(i).copied().unwrap_or(0) {
            return false;
        }
    }
    true
}

/// The last number in the name, or none.
fn number_in(name: &[u8]) -> Number {
    let mut number = Number {
        begin: 0,
        end: 0,
        value: 0,
    };
    for i in 0..name.len() {
        if name[i].is_ascii_digit() {
            number = with_digit(number, i, name[i]);
        }
    }
    number
}

/// The number with one digit more, or another that begins with it.
fn with_digit(number: Number, place: usize, byte: u8) -> Number {
    let digit = u64::from(byte.wrapping_sub(b'0'));
    let end = place.saturating_add(1);
    if number.end == place {
        Number {
            begin: number.begin,
            end,
            value: number.value.wrapping_mul(10).wrapping_add(digit),
        }
    } else {
        Number {
            begin: place,
            end,
            value: digit,
        }
    }
}
