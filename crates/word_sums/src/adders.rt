//! Half and full adders in a graph, by their cuts: a guess at what each node is worth by its inputs. What is found is looked over where it
//! is used.

ghost use Rattle.std.specs.Prelude.{◌<◌, length, IfOk};
ghost use Rattle.aig.specs.Graph.{Grows};

use crate::cut_lists::{CUTS, cut_at, cuts_of, is_none, table_of};
use crate::cuts::{Cut, NO_LEAF};
use crate::rewriting::{MINUS_ONE, Rule, Rules, term};
use crate::sides::{LEFT, RIGHT, mark_later, sides_at, sides_of};
use aig::{Aig, Lit, NoMemory};
use std::alloc::Global;

/// So many nodes leave no room for more.
const ROOM: u32 = 1 << 29;

/// -2 modulo 2^64.
const MINUS_TWO: u64 = u64::MAX - 1;

/// The values of a sum of three leaves.
pub(crate) const SUM: u32 = 0x96;

/// Those of its complement.
pub(crate) const NOT_SUM: u32 = 0x69;

/// The values of a sum of two leaves.
const HALF_SUM: u32 = 0x66;

/// Those of its complement.
const NOT_HALF_SUM: u32 = 0x99;

/// For each of both words a rule for each node that it reads and that is a sum or a carry of an adder, or an and with a complemented
/// operand, in the order of the nodes. Carries that the graph doesn't have are made.
pub(crate) fn rules_of(
    alloc: Global,
    graph: &mut Aig,
    left: &[Lit],
    right: &[Lit],
) -> Result<Rules, NoMemory>
    ensures { Grows graph.old graph.new }
{
    let cuts = cuts_of(alloc, graph)?;
    let size = graph.size();
    let mut sides = sides_of(alloc, graph, left, right)?;
    make_carries(graph, cuts.as_slice(), size, &mut sides)?;
    let own = rules_by(alloc, graph, cuts.as_slice(), size, sides.as_slice(), LEFT)?;
    let other = rules_by(alloc, graph, cuts.as_slice(), size, sides.as_slice(), RIGHT)?;
    Ok(Rules {
        left: own,
        right: other,
    })
}

/// The rules of one word.
fn rules_by(
    alloc: Global,
    graph: &mut Aig,
    cuts: &[Cut],
    size: u32,
    sides: &[u8],
    by: u8,
) -> Result<Vec<Rule>, NoMemory>
    ensures { Grows graph.old graph.new }
{
    let mut rules = Vec::new(alloc);
    for n in 0..size {
        let found = if sides_at(sides, n) & by == 0 {
            None
        } else {
            rule_of(graph, cuts, n, sides, by)?
        };
        if let Some(rule) = found {
            rules.push(rule)?;
        }
    }
    Ok(rules)
}

/// Makes the carry of each cut over which a node is one, or one of complements.
fn make_carries(
    graph: &mut Aig,
    cuts: &[Cut],
    size: u32,
    sides: &mut Vec<u8>,
) -> Result<(), NoMemory>
    ensures { Grows graph.old graph.new }
{
    for n in 0..size {
        make_carries_of(graph, cuts, n, sides)?;
    }
    Ok(())
}

/// The same of the cuts of one node.
fn make_carries_of(
    graph: &mut Aig,
    cuts: &[Cut],
    n: u32,
    sides: &mut Vec<u8>,
) -> Result<(), NoMemory>
    ensures { Grows graph.old graph.new }
{
    for k in 0..CUTS as u32 {
        make_carry(graph, cut_at(cuts, n, k), n, sides)?;
    }
    Ok(())
}

/// The same of one cut. The words that read the node read the carry.
fn make_carry(graph: &mut Aig, cut: Cut, n: u32, sides: &mut Vec<u8>) -> Result<(), NoMemory>
    ensures { Grows graph.old graph.new }
{
    let fits = cut.third != NO_LEAF && is_carry(values(graph, cut, n));
    if !fits {
        return Ok(());
    }
    let carry = carry_of(graph, cut)?;
    let by = sides_at(sides.as_slice(), n);
    mark_later(sides, graph.size(), carry.node(), by)
}

/// The node's rule: by a full adder whose carry the word reads, else by a half adder, else by the and.
fn rule_of(
    graph: &mut Aig,
    cuts: &[Cut],
    n: u32,
    sides: &[u8],
    by: u8,
) -> Result<Option<Rule>, NoMemory>
    ensures { Grows graph.old graph.new }
{
    let full = full_rule(graph, cuts, n, sides, by)?;
    if full.is_some() {
        return Ok(full);
    }
    let half = half_rule(graph, cuts, n, true)?;
    if half.is_some() {
        return Ok(half);
    }
    half_rule(graph, cuts, n, false)
}

/// By a cut of three leaves over which the node is their sum or carry.
fn full_rule(
    graph: &mut Aig,
    cuts: &[Cut],
    n: u32,
    sides: &[u8],
    by: u8,
) -> Result<Option<Rule>, NoMemory>
    ensures { Grows graph.old graph.new }
{
    for k in 0..CUTS as u32 {
        let found = full_rule_by(graph, cut_at(cuts, n, k), n, sides, by)?;
        if found.is_some() {
            return Ok(found);
        }
    }
    Ok(None)
}

/// The same of one cut.
fn full_rule_by(
    graph: &mut Aig,
    cut: Cut,
    n: u32,
    sides: &[u8],
    by: u8,
) -> Result<Option<Rule>, NoMemory>
    ensures { Grows graph.old graph.new }
{
    if cut.third == NO_LEAF {
        return Ok(None);
    }
    let table = values(graph, cut, n);
    let fits = is_carry(table) || table == SUM || table == NOT_SUM;
    if !fits {
        return Ok(None);
    }
    let carry = carry_of(graph, cut)?;
    if sides_at(sides, carry.node()) & by == 0 {
        return Ok(None);
    }
    Ok(Some(rule_by(n, cut, table, carry)))
}

/// By a cut of two leaves: their sum, or else an and with a complemented operand.
fn half_rule(graph: &mut Aig, cuts: &[Cut], n: u32, sum: bool) -> Result<Option<Rule>, NoMemory>
    ensures { Grows graph.old graph.new }
{
    for k in 0..CUTS as u32 {
        // An and is taken by the cut that lies deepest.
        let place = if sum { k } else { CUTS as u32 - 1 - k };
        let found = half_rule_by(graph, cut_at(cuts, n, place), n, sum)?;
        if found.is_some() {
            return Ok(found);
        }
    }
    Ok(None)
}

/// The same of one cut.
fn half_rule_by(graph: &mut Aig, cut: Cut, n: u32, sum: bool) -> Result<Option<Rule>, NoMemory>
    ensures { Grows graph.old graph.new }
{
    if cut.second == NO_LEAF || cut.third != NO_LEAF {
        return Ok(None);
    }
    let table = values(graph, cut, n);
    if !is_half(table, sum) {
        return Ok(None);
    }
    let carry = carry_of(graph, cut)?;
    Ok(Some(rule_by(n, cut, table, carry)))
}

/// Whether these are the values of a sum of two leaves or its complement, or else of an and with a complemented operand.
pub(crate) fn is_half(table: u32, sum: bool) -> bool {
    if sum {
        table == HALF_SUM || table == NOT_HALF_SUM
    } else {
        table == 0x11 || table == 0x22 || table == 0x44
    }
}

/// The node's values over the cut, or 0.
pub(crate) fn values(graph: &Aig, cut: Cut, n: u32) -> u32 {
    if is_none(cut) || n >= graph.size() {
        return 0;
    }
    table_of(graph, cut, n).unwrap_or(0)
}

/// Whether these are the values of a carry, or of one with a complemented leaf, or of the complement of one of these.
pub(crate) fn is_carry(table: u32) -> bool {
    match table {
        0xE8 | 0x17 | 0xD4 | 0x2B | 0xB2 | 0x4D | 0x8E | 0x71 => true,
        _ => false,
    }
}

/// The terms that come to 0 if the node has these values over the cut.
fn rule_by(n: u32, cut: Cut, table: u32, carry: Lit) -> Rule {
    let [first, second, third, twice, one] = weights(table);
    Rule {
        node: n,
        cut,
        terms: [
            term(node_lit(n), 1),
            term(node_lit(cut.first), first),
            term(node_lit(cut.second), second),
            term(node_lit(cut.third), third),
            term(carry, twice),
            term(Lit::TRUE, one),
        ],
    }
}

/// The coefficients of the leaves, the carry and 1 beside the node's own.
fn weights(table: u32) -> [u64; 5] {
    match table {
        SUM => [MINUS_ONE, MINUS_ONE, MINUS_ONE, 2, 0],
        NOT_SUM => [1, 1, 1, MINUS_TWO, MINUS_ONE],
        HALF_SUM => [MINUS_ONE, MINUS_ONE, 0, 2, 0],
        NOT_HALF_SUM => [1, 1, 0, MINUS_TWO, MINUS_ONE],
        0xE8 => [0, 0, 0, MINUS_ONE, 0],
        0x17 => [0, 0, 0, 1, MINUS_ONE],
        0xD4 => [0, MINUS_ONE, MINUS_ONE, 1, 0],
        0x2B => [0, 1, 1, MINUS_ONE, MINUS_ONE],
        0xB2 => [MINUS_ONE, 0, MINUS_ONE, 1, 0],
        0x4D => [1, 0, 1, MINUS_ONE, MINUS_ONE],
        0x8E => [MINUS_ONE, MINUS_ONE, 0, 1, 0],
        0x71 | 0x11 => [1, 1, 0, MINUS_ONE, MINUS_ONE],
        0x22 => [MINUS_ONE, 0, 0, 1, 0],
        _ => [0, MINUS_ONE, 0, 1, 0],
    }
}

/// The literal of the node, or 0 for no leaf.
pub(crate) fn node_lit(n: u32) -> Lit {
    if n == NO_LEAF {
        Lit::FALSE
    } else {
        Lit(n.wrapping_mul(2))
    }
}

/// The carry of an adder of the cut's leaves.
fn carry_of(graph: &mut Aig, cut: Cut) -> Result<Lit, NoMemory>
    ensures { Grows graph.old graph.new }
{
    majority(
        graph,
        node_lit(cut.first),
        node_lit(cut.second),
        node_lit(cut.third),
    )
}

/// The majority of three literals: the and of two where the third is 0. Where they aren't the graph's or there is no room it is another
/// literal.
pub fn majority(graph: &mut Aig, a: Lit, b: Lit, c: Lit) -> Result<Lit, NoMemory>
    ensures { Grows graph.old graph.new }
{
    let both = and_of(graph, a, b)?;
    if c == Lit::FALSE {
        return Ok(both);
    }
    let neither = and_of(graph, Aig::not(a), Aig::not(b))?;
    let either = and_of(graph, c, Aig::not(neither))?;
    let none = and_of(graph, Aig::not(both), Aig::not(either))?;
    Ok(Aig::not(none))
}

/// The and of two literals, or 0 where they aren't the graph's or there is no room.
fn and_of(graph: &mut Aig, l: Lit, r: Lit) -> Result<Lit, NoMemory>
    ensures { Grows graph.old graph.new }
{
    let size = graph.size();
    if size >= ROOM || l.node() >= size || r.node() >= size {
        return Ok(Lit::FALSE);
    }
    graph.and(l, r)
}
