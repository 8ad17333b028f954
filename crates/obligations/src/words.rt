//! Sides that are bits of words: words of the one sides and of the others that are shown to spell one number.

ghost use Rattle.std.specs.Prelude.{◌≡◌, ℕ, ◌*◌, ◌<◌, List, length, IfOk, IsTrue, OnOk};
ghost use Rattle.std.specs.List.{All};
ghost use Rattle.aig.specs.lane_eval.root_classes.Agreeing.{Agree};
ghost use Rattle.word_sums.specs.Words.{AgreeEach};
ghost use Rattle.obligations.specs.outcome.aig.Node.{Node};
ghost use Rattle.obligations.specs.outcome.Queries.{IsSame};
ghost use Rattle.obligations.specs.Agreed.{AreAgreed, IsWord};

use crate::carries::same_by_carries;
use crate::numbered::{Run, open_runs};
use crate::obligation::Obligation;
use crate::outcome::{Aig, NoMemory, Query};
use aig::Lit;
use std::alloc::Global;
use word_sums::{Words, same_words};

/// The literals of one bit of two words.
#[derive(Clone, Copy)]
pub(crate) struct WordBit {
    pub(crate) left: Lit,
    pub(crate) right: Lit,
}

/// Two words, with the lowest bit first.
#[derive(Drop)]
struct BothWords {
    left: Vec<Lit>,
    right: Vec<Lit>,
}

/// Where nothing is known.
const NONE: WordBit = WordBit {
    left: Lit::FALSE,
    right: Lit::FALSE,
};

/// How many terms the difference of two words may have.
const MOST_TERMS: usize = 60_000;

/// Nothing is known of so many obligations.
pub(crate) fn no_bits(alloc: Global, count: usize) -> Result<Vec<WordBit>, NoMemory>
    ensures { IfOk result (λ bits. (g : List Node) → AreAgreed g bits.items) }
{
    let bits = vec![in alloc; NONE; count]?;
    Ok(bits)
}

/// For each obligation two literals that agree: its sides, if it is a bit of two words that are shown to spell one number. Words are
/// guessed by the names, and asked where bits are open.
pub(crate) fn ask_words(
    alloc: Global,
    aig: &Aig,
    asked: &[Obligation],
    open: &[bool],
    bits: &mut [WordBit],
) -> Result<(), NoMemory>
    requires { AreAgreed aig.now bits.old }
    ensures { OnOk result (AreAgreed aig.now bits.new) }
{
    let runs = open_runs(alloc, asked, open, aig.size())?;
    for i in 0..runs.len() {
        ask_word(alloc, aig, asked, &runs[i], bits)?;
    }
    Ok(())
}

/// Asks of the run whether its words are the same, and puts their bits if they are.
fn ask_word(
    alloc: Global,
    aig: &Aig,
    asked: &[Obligation],
    run: &Run,
    bits: &mut [WordBit],
) -> Result<(), NoMemory>
    requires { AreAgreed aig.now bits.old }
    ensures { OnOk result (AreAgreed aig.now bits.new) }
{
    let word = words_of(alloc, aig, asked, run)?;
    let left = word.left.as_slice();
    let right = word.right.as_slice();
    if are_same(alloc, aig, left, right)? {
        put_bits(bits, run, left, right);
    }
    Ok(())
}

/// Whether the words are shown to spell one number: as they stand, or else over a graph in which carries are majorities.
fn are_same(alloc: Global, aig: &Aig, left: &[Lit], right: &[Lit]) -> Result<bool, NoMemory>
    requires left { All (λ (l : Lit). l.0 < 2 * length aig.now) left.now }
    requires right { All (λ (l : Lit). l.0 < 2 * length aig.now) right.now }
    requires lengths { length left.now ≡ length right.now }
    ensures { IfOk result (λ same. IsTrue same → AgreeEach aig.now left.now right.now) }
{
    match same_words(alloc, aig, left, right, MOST_TERMS)? {
        Words::Same => Ok(true),
        Words::Differ(_) => Ok(false),
        Words::Open => same_by_carries(alloc, aig, left, right, MOST_TERMS),
    }
}

/// The words of the run's sides, of queries that stand alone.
fn words_of(
    alloc: Global,
    aig: &Aig,
    asked: &[Obligation],
    run: &Run,
) -> Result<BothWords, NoMemory>
    ensures { IfOk result (IsWord aig.now) }
{
    let mut word = BothWords {
        left: Vec::new(alloc),
        right: Vec::new(alloc),
    };
    for k in 0..run.count {
        let bit = bit_of(asked, run.place(k));
        put_bit(aig, &mut word, bit)?;
    }
    Ok(word)
}

/// Puts the literals behind the words, if they are of the graph.
fn put_bit(aig: &Aig, word: &mut BothWords, bit: WordBit) -> Result<(), NoMemory>
    ensures { OnOk result (IsWord aig.now word.old → IsWord aig.now word.new) }
{
    aig.keeps();
    let size = 2 * aig.size();
    if bit.left.0 < size && bit.right.0 < size {
        word.left.push(bit.left)?;
        word.right.push(bit.right)?;
    }
    Ok(())
}

/// The sides of the obligation at this place, if it has one query.
fn bit_of(asked: &[Obligation], place: usize) -> WordBit {
    if place >= asked.len() {
        return NONE;
    }
    let queries = asked[place].queries.as_slice();
    if queries.len() != 1 {
        return NONE;
    }
    WordBit {
        left: queries[0].left,
        right: queries[0].right,
    }
}

/// Puts the bits of words that agree at the places of the run.
fn put_bits(bits: &mut [WordBit], run: &Run, left: &[Lit], right: &[Lit])
    requires { length left.now ≡ length right.now }
    ensures { (g : List Node) → AgreeEach g left.now right.now → AreAgreed g bits.old → AreAgreed g bits.new }
{
    for k in 0..left.len() {
        let bit = WordBit {
            left: left[k],
            right: right[k],
        };
        put_at(bits, run.place(k), bit);
    }
}

/// Puts the bit at the place, if there is one.
fn put_at(bits: &mut [WordBit], place: usize, bit: WordBit)
    ensures { (g : List Node) → Agree g bit.left.0 bit.right.0 → AreAgreed g bits.old → AreAgreed g bits.new }
{
    if place < bits.len() {
        bits[place] = bit;
    }
}

/// Whether there is one query, whose sides are the bits at this place.
pub(crate) fn are_agreed(bits: &[WordBit], place: usize, queries: &[Query]) -> bool
    ensures { IsTrue result → (g : List Node) → AreAgreed g bits.now → All (IsSame g) queries.now }
{
    if place >= bits.len() || queries.len() != 1 {
        return false;
    }
    is_bit(bits[place], &queries[0])
}

/// Whether the sides of the query are this bit.
fn is_bit(bit: WordBit, query: &Query) -> bool
    ensures { IsTrue result → (g : List Node) → Agree g bit.left.0 bit.right.0 → IsSame g query.now }
{
    query.left == bit.left && query.right == bit.right
}

/// The same of the obligation at this place.
pub(crate) fn is_agreed(bits: &[WordBit], place: usize, asked: &[Obligation]) -> bool {
    place < asked.len() && are_agreed(bits, place, asked[place].queries.as_slice())
}
