//! The calls of rows on a graph.

ghost use Rattle.std.specs.Prelude.{◌*◌, ◌<◌, ◌≤◌, length};
ghost use Rattle.aig.specs.Cone.{IsClosed};
ghost use Rattle.pair_decide.specs.Queries.{IsQuery};

use crate::functions::decisions::{query_of, show_clauses, show_decision, show_least};
use crate::functions::lanes::{numbers_of, show_blocks, show_both};
use crate::functions::sketch::{NODES, Sketch};
use crate::functions::sums::show_same_words;
use crate::functions::sweeps::{show_cases, show_swept};
use crate::pieces::show_numbers;
use crate::row_text::{number_of, show, show_count, show_number, split_at};
use aig::{Aig, Lit, Node};
use pair_decide::Query;
use std::rt::HostRuntime;
use std::str;

/// Shows the answer of the call that the words spell, behind a blank.
pub(crate) fn show_call(rt: &HostRuntime, sketch: &Sketch, call: &[u8]) {
    let (_, words) = split_at(b' ', call);
    let (name, given) = split_at(b' ', words);
    if !sketch.is_whole {
        return show(rt, b" not a row");
    }
    match str::from_utf8(name).unwrap_or("") {
        "literals" => show_numbers(rt, b"", sketch.made.as_slice()),
        "size" => show_size(rt, &sketch.graph),
        "signatures" => show_blocks(rt, &sketch.graph, numbers_of(rt, given).as_slice()),
        "and_block" => show_both(rt, numbers_of(rt, given).as_slice()),
        "same_words" => show_same_words(rt, sketch, given),
        other => show_of_literals(rt, sketch, other, given),
    }
}

/// Shows the numbers of nodes and of variables.
fn show_size(rt: &HostRuntime, graph: &Aig) {
    show_count(rt, graph.size() as u64);
    show(rt, b" nodes");
    show_count(rt, graph.vars() as u64);
    show(rt, b" variables");
}

/// The literal that the word names; another where it names none.
fn literal_or(sketch: &Sketch, word: &[u8], other: Lit) -> Lit
    requires { other.0 < 2 * length sketch.now.graph }
    ensures { result.0 < 2 * length sketch.now.graph }
{
    let number = sketch.literal(word);
    if number >= (2 * sketch.graph.size() as u64).min(2 * NODES) {
        return other;
    }
    Lit(number as u32)
}

/// Shows the answer of a call on the literals that the first words name: a side, a second one, and a care. One that isn't there is the
/// first.
fn show_of_literals(rt: &HostRuntime, sketch: &Sketch, name: &str, given: &[u8]) {
    let (first, behind) = split_at(b' ', given);
    let (second, others) = split_at(b' ', behind);
    let (third, last) = split_at(b' ', others);
    let graph = &sketch.graph;
    let number = sketch.literal(first);
    if number >= (2 * graph.size() as u64).min(2 * NODES) {
        return show(rt, b" not a row");
    }
    let left = Lit(number as u32);
    let right = literal_or(sketch, second, left);
    let care = literal_or(sketch, third, left);
    match query_of(rt.alloc(), graph, left, right, care) {
        Ok(query) => show_asked(rt, graph, &query, name, (second, third, last)),
        Err(_) => show(rt, b" no memory"),
    }
}

/// The number of conflicts that the word spells.
fn conflicts_of(word: &[u8]) -> u32
    ensures { result ≤ 200000 }
{
    (number_of(word).unwrap_or(0) % 200_001) as u32
}

/// Shows the answer of a call on the literals of the query. Of the words behind the first one some are bits or a number of conflicts.
fn show_asked(rt: &HostRuntime, graph: &Aig, query: &Query, name: &str, more: (&[u8], &[u8], &[u8]))
    requires { IsQuery graph.now query.now }
{
    let (left, right) = (query.left, query.right);
    let (second, third, last) = more;
    match name {
        "cone" => show_cone(rt, graph, left),
        "value" => show_value(rt, graph, left, second),
        "table_differs" => show_least(rt, graph, query),
        "encode" => show_clauses(rt, graph, query),
        "decide" => show_decision(rt, graph, query, conflicts_of(last)),
        "sweep" => show_swept(rt, graph, left, right, conflicts_of(third)),
        "agree_by_cases" => show_cases(rt, graph, left, right),
        _ => show(rt, b" not a row"),
    }
}

/// Shows the nodes of the cone of a literal, and the cone as a graph of its own.
fn show_cone(rt: &HostRuntime, graph: &Aig, lit: Lit)
    requires { lit.0 < 2 * length graph.now }
{
    match graph.cone(rt.alloc(), &[lit]) {
        Ok(cone) => show_part(rt, graph, cone.as_slice()),
        Err(_) => show(rt, b" no memory"),
    }
}

fn show_part(rt: &HostRuntime, graph: &Aig, cone: &[u32])
    requires { IsClosed graph.now cone.now }
{
    for node in cone {
        show_count(rt, *node as u64);
    }
    show(rt, b" are");
    match graph.part(rt.alloc(), cone) {
        Ok(part) => show_nodes(rt, part.as_slice()),
        Err(_) => show(rt, b" no memory"),
    }
}

fn show_nodes(rt: &HostRuntime, nodes: &[Node]) {
    for node in nodes {
        match *node {
            Node::Constant => show(rt, b" 0"),
            Node::Input(variable) => {
                show(rt, b" x");
                show_number(rt, variable as u64);
            }
            Node::And(l, r) => {
                show_count(rt, l.0 as u64);
                show(rt, b"&");
                show_number(rt, r.0 as u64);
            }
        }
    }
}

/// Shows the value of a literal under the bits of all variables.
fn show_value(rt: &HostRuntime, graph: &Aig, lit: Lit, digits: &[u8])
    requires { lit.0 < 2 * length graph.now }
{
    let mut bits = [false; 100];
    let count = digits.len().min(100);
    for place in 0..count {
        bits[place] = digits[place] == b'1';
    }
    show_value_under(rt, graph, lit, &bits[..count]);
}

/// Shows a blank and the value of the literal, where the bits are those of all variables.
pub(crate) fn show_value_under(rt: &HostRuntime, graph: &Aig, lit: Lit, bits: &[bool])
    requires { lit.0 < 2 * length graph.now }
{
    let mut scratch = [false; 1_000];
    let size = graph.size() as usize;
    if bits.len() != graph.vars() as usize || size > 1_000 {
        return show(rt, b" not a row");
    }
    let value = graph.value(lit, bits, &mut scratch[..size]);
    show(rt, if value { b" 1" } else { b" 0" });
}
