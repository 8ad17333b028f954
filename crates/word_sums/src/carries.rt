//! Carries of adders that aren't made of full adders, as those with prefixes: guesses by drawn assignments. No clause says which.

use crate::adders::{NOT_SUM, SUM, is_carry, is_half, node_lit, values};
use crate::cut_lists::{CUTS, cut_at, cuts_of};
use crate::cuts::{Cut, NO_LEAF};
use crate::sides::{LEFT, RIGHT, sides_at, sides_of};
use aig::{Aig, Lit, NoMemory, Node};
use std::alloc::Global;

/// A node that may be the majority of three literals, or the complement of it.
#[derive(Clone, Copy)]
pub struct Carry {
    pub first: Lit,
    pub second: Lit,
    pub third: Lit,
    pub complement: bool,
}

/// A carry that some node may be, the words that read its sum, and a key of its values.
#[derive(Clone, Copy)]
struct Trial {
    carry: Carry,
    sides: u8,
    mask: u64,
    key: u64,
}

/// The nodes of a graph: their values under 64 assignments, those under the first one in each bit, and a key of all.
#[derive(Drop)]
struct Drawn {
    values: Vec<u64>,
    masks: Vec<u64>,
    keys: Vec<u64>,
}

/// How often 64 assignments are drawn.
const ROUNDS: u64 = 64;

/// How far a key is looked for.
const REACH: u64 = 32;

/// No trial.
const NO_TRIAL: u32 = u32::MAX;

/// For each node of the graph a carry that it may be: of a sum that a word reads which reads the node, too. Nodes that are carries by
/// three leaves have none.
pub fn guessed_carries(
    alloc: Global,
    graph: &Aig,
    left: &[Lit],
    right: &[Lit],
) -> Result<Vec<Option<Carry>>, NoMemory> {
    let cuts = cuts_of(alloc, graph)?;
    let sides = sides_of(alloc, graph, left, right)?;
    let mut addends = vec![in alloc; false; graph.size() as usize]?;
    mark_word(addends.as_mut_slice(), left);
    mark_word(addends.as_mut_slice(), right);
    let mut trials = Vec::new(alloc);
    put_trials(graph, cuts.as_slice(), sides.as_slice(), true, &mut trials)?;
    put_trials(graph, cuts.as_slice(), sides.as_slice(), false, &mut trials)?;
    mark_leaves(addends.as_mut_slice(), trials.as_slice());
    let drawn = draw(alloc, graph, trials.as_mut_slice())?;
    let slots = slots_of(alloc, trials.as_slice())?;
    let mut carries = Vec::new(alloc);
    for n in 0..graph.size() {
        let may = addends.get(n as usize) == Some(&true) && !is_made(graph, cuts.as_slice(), n);
        let found = if may {
            carry_at(
                &drawn,
                trials.as_slice(),
                slots.as_slice(),
                sides_at(sides.as_slice(), n),
                n,
            )
        } else {
            None
        };
        carries.push(found)?;
    }
    Ok(carries)
}

/// Marks the nodes of a word.
fn mark_word(addends: &mut [bool], word: &[Lit]) {
    for i in 0..word.len() {
        mark(addends, word[i]);
    }
}

/// Marks what the sums add.
fn mark_leaves(addends: &mut [bool], trials: &[Trial]) {
    for i in 0..trials.len() {
        mark(addends, trials[i].carry.first);
        mark(addends, trials[i].carry.second);
        mark(addends, trials[i].carry.third);
    }
}

/// Marks the literal's node.
fn mark(addends: &mut [bool], l: Lit) {
    let n = l.node() as usize;
    if n < addends.len() {
        addends[n] = true;
    }
}

/// Whether the node is a carry over some cut of three leaves.
fn is_made(graph: &Aig, cuts: &[Cut], n: u32) -> bool {
    for k in 0..CUTS as u32 {
        let cut = cut_at(cuts, n, k);
        if cut.third != NO_LEAF && is_carry(values(graph, cut, n)) {
            return true;
        }
    }
    false
}

/// Puts what may be the carries of each sum of three leaves, or else of two.
fn put_trials(
    graph: &Aig,
    cuts: &[Cut],
    sides: &[u8],
    full: bool,
    trials: &mut Vec<Trial>,
) -> Result<(), NoMemory> {
    for n in 0..graph.size() {
        for k in 0..CUTS as u32 {
            let cut = cut_at(cuts, n, k);
            if is_sum(graph, cut, n, full) {
                put_signs(cut, sides_at(sides, n), trials)?;
            }
        }
    }
    Ok(())
}

/// Whether the node is the sum of the cut's leaves or its complement, of three of them or of two.
fn is_sum(graph: &Aig, cut: Cut, n: u32, full: bool) -> bool {
    if cut.second == NO_LEAF || (cut.third != NO_LEAF) != full {
        return false;
    }
    let table = values(graph, cut, n);
    if full {
        table == SUM || table == NOT_SUM
    } else {
        is_half(table, true)
    }
}

/// Puts the carry of the leaves, and those with one complement. Of two leaves there are as many.
fn put_signs(cut: Cut, sides: u8, trials: &mut Vec<Trial>) -> Result<(), NoMemory> {
    for sign in 0..4u32 {
        let third = cut.third != NO_LEAF;
        let carry = Carry {
            first: signed(cut.first, sign == 1 || (sign == 3 && !third)),
            second: signed(cut.second, sign == 2 || (sign == 3 && !third)),
            third: signed(cut.third, sign == 3 && third),
            complement: false,
        };
        trials.push(Trial {
            carry,
            sides,
            mask: 0,
            key: 0,
        })?;
    }
    Ok(())
}

/// The leaf or its complement; 0 for no leaf.
fn signed(leaf: u32, complement: bool) -> Lit {
    let l = node_lit(leaf);
    if complement { Aig::not(l) } else { l }
}

/// Draws assignments, and gives nodes and trials the keys of their values.
fn draw(alloc: Global, graph: &Aig, trials: &mut [Trial]) -> Result<Drawn, NoMemory> {
    let size = graph.size() as usize;
    let mut drawn = Drawn {
        values: vec![in alloc; 0u64; size]?,
        masks: vec![in alloc; 0u64; size]?,
        keys: vec![in alloc; 0u64; size]?,
    };
    fill(graph, 0, drawn.masks.as_mut_slice());
    for i in 0..trials.len() {
        trials[i].mask = word_of(drawn.masks.as_slice(), trials[i].carry);
    }
    for round in 1..ROUNDS + 1 {
        fill(graph, round, drawn.values.as_mut_slice());
        drawn.note();
        note_trials(drawn.values.as_slice(), trials);
    }
    Ok(drawn)
}

impl Drawn {
    /// Puts the values into the keys.
    fn note(&mut self) {
        for n in 0..self.keys.len() {
            let value = word_at(self.values.as_slice(), n) ^ word_at(self.masks.as_slice(), n);
            self.keys[n] = mixed(self.keys[n], value);
        }
    }
}

/// The same of the trials.
fn note_trials(values: &[u64], trials: &mut [Trial]) {
    for i in 0..trials.len() {
        let mut trial = trials[i];
        trial.key = mixed(trial.key, word_of(values, trial.carry) ^ trial.mask);
        trials[i] = trial;
    }
}

/// Gives each node its values under the assignments of this round. In round 0 all variables are 0.
fn fill(graph: &Aig, round: u64, values: &mut [u64]) {
    for n in 0..graph.size() {
        let value = match graph.node(n) {
            Node::Constant => 0,
            Node::Input(v) => drawn_word(round, v),
            Node::And(l, r) => lit_word(values, l) & lit_word(values, r),
        };
        if (n as usize) < values.len() {
            values[n as usize] = value;
        }
    }
}

/// 64 bits of the variable.
fn drawn_word(round: u64, v: u32) -> u64 {
    if round == 0 {
        return 0;
    }
    let seed = mixed(round, u64::from(v));
    mixed(seed ^ (seed >> 29), round)
}

/// A mix of both.
fn mixed(key: u64, word: u64) -> u64 {
    let x = (key ^ word)
        .wrapping_add(0x9E37_79B9_7F4A_7C15)
        .wrapping_mul(0xBF58_476D_1CE4_E5B9);
    let y = (x ^ (x >> 27)).wrapping_mul(0x94D0_49BB_1331_11EB);
    y ^ (y >> 31)
}

/// The word at the place, or 0.
fn word_at(words: &[u64], n: usize) -> u64 {
    words.get(n).copied().unwrap_or(0)
}

/// The literal's values.
fn lit_word(values: &[u64], l: Lit) -> u64 {
    let word = word_at(values, l.node() as usize);
    if l.is_complement() { !word } else { word }
}

/// The carry's values.
fn word_of(values: &[u64], carry: Carry) -> u64 {
    let x = lit_word(values, carry.first);
    let y = lit_word(values, carry.second);
    (x & y) | (lit_word(values, carry.third) & (x | y))
}

/// A table of the trials by their keys.
fn slots_of(alloc: Global, trials: &[Trial]) -> Result<Vec<u32>, NoMemory> {
    let mut slots = vec![in alloc; NO_TRIAL; trials.len().saturating_mul(4).saturating_add(1)]?;
    for i in 0..trials.len() {
        put_slot(slots.as_mut_slice(), trials, i, LEFT);
        put_slot(slots.as_mut_slice(), trials, i, RIGHT);
    }
    Ok(slots)
}

/// Puts the trial into the table, if this word reads its sum and there is no earlier one of its key that the word reads.
fn put_slot(slots: &mut [u32], trials: &[Trial], i: usize, by: u8) {
    if i >= trials.len() || i >= NO_TRIAL as usize || trials[i].sides & by == 0 {
        return;
    }
    let Some(place) = slot_of(slots, trials, trials[i].key, by) else {
        return;
    };
    if place < slots.len() && slots[place] == NO_TRIAL {
        slots[place] = i as u32;
    }
}

/// The place in the table of a trial of this key that the word reads, or the free one where it would be.
fn slot_of(slots: &[u32], trials: &[Trial], key: u64, by: u8) -> Option<usize> {
    if slots.is_empty() {
        return None;
    }
    for step in 0..REACH {
        let place = (key.wrapping_add(step) % slots.len() as u64) as usize;
        if is_slot(slots, trials, place, key, by) {
            return Some(place);
        }
    }
    None
}

/// Whether it is this place.
fn is_slot(slots: &[u32], trials: &[Trial], place: usize, key: u64, by: u8) -> bool {
    if place >= slots.len() {
        return false;
    }
    match trials.get(slots[place] as usize) {
        Some(trial) => trial.key == key && trial.sides & by != 0,
        None => true,
    }
}

/// The carry that the node may be.
fn carry_at(drawn: &Drawn, trials: &[Trial], slots: &[u32], sides: u8, n: u32) -> Option<Carry> {
    let left = carry_by(drawn, trials, slots, sides & LEFT, n);
    if left.is_some() {
        return left;
    }
    carry_by(drawn, trials, slots, sides & RIGHT, n)
}

/// The carry that the node may be in one word.
fn carry_by(drawn: &Drawn, trials: &[Trial], slots: &[u32], by: u8, n: u32) -> Option<Carry> {
    let place = slot_of(
        slots,
        trials,
        word_at(drawn.keys.as_slice(), n as usize),
        by,
    )?;
    if place >= slots.len() || by == 0 {
        return None;
    }
    let trial = trials.get(slots[place] as usize)?;
    let mut carry = trial.carry;
    if carry.first.node() >= n || carry.second.node() >= n || carry.third.node() >= n {
        return None;
    }
    carry.complement = trial.mask != word_at(drawn.masks.as_slice(), n as usize);
    Some(carry)
}
