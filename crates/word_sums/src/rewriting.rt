//! The difference of two words, rewritten by identities of few literals until none is left.

ghost use Rattle.std.specs.Prelude.{◌≡◌, ℕ, ◌*◌, ◌^◌, ◌<◌, ◌≤◌, Bool, length, All, IfOk, IfNone, IsTrue};
ghost use Rattle.aig.specs.Values.{value};
ghost use Rattle.word_sums.specs.Sums.{sum_number, word_bits, KeepsSum};

use crate::coefficients::{add_terms, is_empty, put_words};
use crate::cuts::{Cut, NO_LEAF};
use crate::vanishing::{Term, are_below, vanish};
use aig::{Aig, Lit, NoMemory};
use std::alloc::Global;

/// What a node is worth by its inputs: terms that come to 0, by the bits of the cut's leaves. The node's own term has the coefficient 1.
/// It is a guess, which is looked over where it is used.
#[derive(Clone, Copy)]
pub(crate) struct Rule {
    pub(crate) node: u32,
    pub(crate) cut: Cut,
    pub(crate) terms: [Term; 6],
}

/// The rules of both words.
#[derive(Drop)]
pub(crate) struct Rules {
    pub(crate) left: Vec<Rule>,
    pub(crate) right: Vec<Rule>,
}

/// How many nodes that are left are told at most.
const TRIES: usize = 64;

/// -1 modulo 2^64.
pub(crate) const MINUS_ONE: u64 = u64::MAX;

/// None where two words of one length, 1 to 64 bits, are shown to have equal bits under every assignment; else node 0 and some of the nodes
/// that are left of their difference. The left word is put and rewritten by its rules, and then the right one by its own, since a node that
/// both read may be of another adder in each. The rules are used once each, from the last to the first. A word is given up where about so
/// many terms are left.
pub(crate) fn left_over(
    alloc: Global,
    graph: &Aig,
    left: &[Lit],
    right: &[Lit],
    rules: &Rules,
    terms: usize,
) -> Result<Option<Vec<u32>>, NoMemory>
    requires left { All (λ l. l.0 < 2 * length graph.now) left.now }
    requires right { All (λ l. l.0 < 2 * length graph.now) right.now }
    requires lengths { length left.now ≡ length right.now }
    requires some { 0 < length left.now }
    requires few { length left.now ≤ 64 }
    ensures { IfOk result (λ rest. IfNone rest ((a : ℕ → Bool) → word_bits (value graph.now a) left.now ≡ word_bits (value graph.now a) right.now)) }
{
    graph.keeps();
    let mut coefficients = vec![in alloc; 0u64; 2 * (graph.size() as usize)]?;
    let zeros = vec![in alloc; Lit::FALSE; left.len()]?;
    let same = cancel_out(
        graph,
        coefficients.as_mut_slice(),
        left,
        right,
        zeros.as_slice(),
        rules,
        terms,
    );
    if same {
        return Ok(None);
    }
    let nodes = nodes_of(alloc, coefficients.as_slice())?;
    Ok(Some(nodes))
}

/// Node 0, and behind it the first nodes of which a literal has a coefficient.
fn nodes_of(alloc: Global, coefficients: &[u64]) -> Result<Vec<u32>, NoMemory> {
    let mut nodes = Vec::new(alloc);
    nodes.push(0u32)?;
    for x in 2..coefficients.len() {
        if coefficients[x] != 0 && x / 2 < NO_LEAF as usize && nodes.len() < TRIES {
            nodes.push((x / 2) as u32)?;
        }
    }
    Ok(nodes)
}

/// Whether nothing is left of the difference of both words, where no literal has a coefficient yet. What is left has one then. Each word is
/// put beside a third one, which is taken away and comes again.
fn cancel_out(
    graph: &Aig,
    coefficients: &mut [u64],
    left: &[Lit],
    right: &[Lit],
    zeros: &[Lit],
    rules: &Rules,
    terms: usize,
) -> bool
    requires left { All (λ l. l.0 < 2 * length graph.now) left.now }
    requires right { All (λ l. l.0 < 2 * length graph.now) right.now }
    requires zeros { All (λ l. l.0 < 2 * length graph.now) zeros.now }
    requires lengths { length left.now ≡ length right.now }
    requires also { length zeros.now ≡ length left.now }
    requires some { 0 < length left.now }
    requires few { length left.now ≤ 64 }
    requires places { length coefficients.old ≡ 2 * length graph.now }
    requires none { (f : ℕ → Bool) → sum_number f 0 coefficients.old ≡ 0 }
    ensures each { length coefficients.new ≡ length coefficients.old }
    ensures same { IsTrue result → (a : ℕ → Bool) → word_bits (value graph.now a) left.now ≡ word_bits (value graph.now a) right.now }
{
    let times = scale_of(left.len());
    put_words(coefficients, left, zeros, times);
    rewrite(graph, coefficients, rules.left.as_slice(), terms);
    put_words(coefficients, zeros, right, times);
    rewrite(graph, coefficients, rules.right.as_slice(), terms);
    clear_complements(graph, coefficients);
    is_empty(coefficients)
}

/// What a word of so many bits is taken times, so that 2^64 is what follows on its highest bit: so all is told modulo 2^64.
fn scale_of(bits: usize) -> u64
    requires some { 0 < bits }
    requires few { bits ≤ 64 }
    ensures whole { result * 2 ^ bits ≡ 2 ^ 64 }
    ensures some { 0 < result }
{
    1u64 << (64 - bits as u32)
}

/// Uses the rules, the last first.
fn rewrite(graph: &Aig, coefficients: &mut [u64], rules: &[Rule], terms: usize)
    requires { length coefficients.old ≡ 2 * length graph.now }
    ensures each { length coefficients.new ≡ length coefficients.old }
    ensures sum { KeepsSum graph.now coefficients.old coefficients.new }
{
    let mut count = 0usize;
    for i in 0..rules.len() {
        let rule = rules[rules.len() - 1 - i];
        let before = count_of(coefficients, &rule.terms);
        replace(graph, coefficients, &rule);
        count = count.saturating_add(count_of(coefficients, &rule.terms));
        count = count.saturating_sub(before);
        if count > terms {
            return;
        }
    }
}

/// How many of the terms' literals have a coefficient.
fn count_of(coefficients: &[u64], terms: &[Term]) -> usize {
    let mut count = 0usize;
    for term in terms {
        if coefficients.get(term.lit.0 as usize).copied().unwrap_or(0) != 0 {
            count = count.saturating_add(1);
        }
    }
    count
}

/// Replaces the rule's node by the other terms.
fn replace(graph: &Aig, coefficients: &mut [u64], rule: &Rule)
    requires { length coefficients.old ≡ 2 * length graph.now }
    ensures each { length coefficients.new ≡ length coefficients.old }
    ensures sum { KeepsSum graph.now coefficients.old coefficients.new }
{
    clear_complement(graph, coefficients, rule.node);
    let place = 2 * (rule.node as usize);
    let own = coefficients.get(place).copied().unwrap_or(0);
    if own == 0 {
        return;
    }
    cancel(
        graph,
        coefficients,
        rule.cut,
        &rule.terms,
        own.wrapping_neg(),
    );
}

/// Replaces the complement of each node, and drops the constant 0.
fn clear_complements(graph: &Aig, coefficients: &mut [u64])
    requires { length coefficients.old ≡ 2 * length graph.now }
    ensures each { length coefficients.new ≡ length coefficients.old }
    ensures sum { KeepsSum graph.now coefficients.old coefficients.new }
{
    for n in 1..graph.size() {
        clear_complement(graph, coefficients, n);
    }
    let zero = coefficients.get(0).copied().unwrap_or(0);
    let none = Cut {
        first: NO_LEAF,
        second: NO_LEAF,
        third: NO_LEAF,
    };
    let terms = [term(Lit::FALSE, 1)];
    cancel(graph, coefficients, none, &terms, zero.wrapping_neg());
}

/// Replaces the node's complement by 1 less the node.
fn clear_complement(graph: &Aig, coefficients: &mut [u64], n: u32)
    requires { length coefficients.old ≡ 2 * length graph.now }
    ensures each { length coefficients.new ≡ length coefficients.old }
    ensures sum { KeepsSum graph.now coefficients.old coefficients.new }
{
    let place = 2 * (n as usize) + 1;
    let own = coefficients.get(place).copied().unwrap_or(0);
    if own == 0 {
        return;
    }
    let cut = Cut {
        first: n,
        second: NO_LEAF,
        third: NO_LEAF,
    };
    let node = Lit(n.wrapping_mul(2));
    let terms = [
        term(Aig::not(node), 1),
        term(node, 1),
        term(Lit::TRUE, MINUS_ONE),
    ];
    cancel(graph, coefficients, cut, &terms, own.wrapping_neg());
}

/// A literal with a coefficient.
pub(crate) fn term(lit: Lit, coefficient: u64) -> Term {
    Term { lit, coefficient }
}

/// Adds the terms so many times, if they come to 0.
fn cancel(graph: &Aig, coefficients: &mut [u64], cut: Cut, terms: &[Term], times: u64)
    requires { length coefficients.old ≡ 2 * length graph.now }
    ensures each { length coefficients.new ≡ length coefficients.old }
    ensures sum { KeepsSum graph.now coefficients.old coefficients.new }
{
    graph.keeps();
    if !are_below(terms, 2 * graph.size()) {
        return;
    }
    if !vanish(graph, cut, terms) {
        return;
    }
    add_terms(coefficients, terms, times);
}
