//! Two words of literals, told to be the same or not.

ghost use Rattle.std.specs.Prelude.{◌≡◌, ◌*◌, ◌<◌, ◌≤◌, length, map, All, IfOk};
ghost use Rattle.aig.specs.graph_copy.graph_clone.Twins.{twin_in};
ghost use Rattle.word_sums.specs.Words.{IsTold};

use crate::adders::rules_of;
use crate::answer::Words;
use crate::difference::difference;
use crate::rewriting::left_over;
use aig::graph_copy::graph_clone::{copy_graph, literal_for};
use aig::{Aig, Lit, NoMemory};
use std::alloc::Global;

/// The greatest number of bits of a word.
pub const MAX_WORD: usize = 64;

/// Whether two words of one length, with the lowest bit first, spell one number under every assignment: each is rewritten by
/// half and full adders, with coefficients modulo 2^n for words of n bits, until no literal is left. Where some are, some
/// assignments are tried. Words of no bit or of more than 64 are left open, and so is a difference of about so many terms or more. It works
/// on a copy of the graph.
pub fn same_words(
    alloc: Global,
    graph: &Aig,
    left: &[Lit],
    right: &[Lit],
    terms: usize,
) -> Result<Words, NoMemory>
    requires left { All (λ l. l.0 < 2 * length graph.now) left.now }
    requires right { All (λ l. l.0 < 2 * length graph.now) right.now }
    requires lengths { length left.now ≡ length right.now }
    ensures { IfOk result (IsTold graph.now left.now right.now) }
{
    if left.is_empty() || left.len() > MAX_WORD {
        return Ok(Words::Open);
    }
    told(alloc, graph, left, right, terms)
}

/// The same of words of 1 to 64 bits.
fn told(
    alloc: Global,
    graph: &Aig,
    left: &[Lit],
    right: &[Lit],
    terms: usize,
) -> Result<Words, NoMemory>
    requires left { All (λ l. l.0 < 2 * length graph.now) left.now }
    requires right { All (λ l. l.0 < 2 * length graph.now) right.now }
    requires lengths { length left.now ≡ length right.now }
    requires some { 0 < length left.now }
    requires few { length left.now ≤ 64 }
    ensures { IfOk result (IsTold graph.now left.now right.now) }
{
    let mut copy = copy_graph(alloc, graph)?;
    let own_left = copies_of(alloc, copy.lits.as_slice(), left)?;
    let own_right = copies_of(alloc, copy.lits.as_slice(), right)?;
    let rules = rules_of(
        alloc,
        &mut copy.aig,
        own_left.as_slice(),
        own_right.as_slice(),
    )?;
    copy.aig.keeps();
    let rest = left_over(
        alloc,
        &copy.aig,
        own_left.as_slice(),
        own_right.as_slice(),
        &rules,
        terms,
    )?;
    match rest {
        None => Ok(Words::Same),
        Some(nodes) => difference(alloc, graph, left, right, &copy.aig, nodes.as_slice()),
    }
}

/// The same words in the new graph.
fn copies_of(alloc: Global, lits: &[Lit], word: &[Lit]) -> Result<Vec<Lit>, NoMemory>
    requires { All (λ l. l.0 < 2 * length lits.now) word.now }
    ensures { IfOk result (λ copies. copies.items ≡ map (twin_in lits.now) word.now) }
{
    let mut copies = Vec::new(alloc);
    for i in 0..word.len() {
        copies.push(literal_for(lits, word[i]))?;
    }
    Ok(copies)
}
