//! Values of all nodes under 64 assignments that are near one that told nodes apart. No clause sees it.

use crate::models::Model;
use aig::{Lit, NoMemory, Node};
use std::alloc::Global;

/// The values of the variables and of the nodes under 64 assignments.
#[derive(Drop)]
pub(crate) struct Column {
    inputs: Vec<u64>,
    values: Vec<u64>,
}

impl Column {
    /// The column for the variables, without nodes: in the first assignment the model's variables have its bits, in each other one
    /// one or two of them are turned, and the rest is random.
    pub(crate) fn new(
        alloc: Global,
        words: &[u64],
        round: usize,
        model: &Model,
    ) -> Result<Column, NoMemory> {
        let mut inputs = vec![in alloc; 0u64; words.len() / 8]?;
        put_random(inputs.as_mut_slice(), words, round);
        put_model(inputs.as_mut_slice(), model);
        Ok(Column {
            inputs,
            values: Vec::new(alloc),
        })
    }

    /// The same where in each assignment one of eight of the model's variables is turned, at random.
    pub(crate) fn about(
        alloc: Global,
        words: &[u64],
        round: usize,
        model: &Model,
    ) -> Result<Column, NoMemory> {
        let mut inputs = vec![in alloc; 0u64; words.len() / 8]?;
        put_random(inputs.as_mut_slice(), words, round);
        turn_some(inputs.as_mut_slice(), words, round, model);
        Ok(Column {
            inputs,
            values: Vec::new(alloc),
        })
    }

    /// Puts the values of one more node behind the others'.
    pub(crate) fn add(&mut self, node: Node) -> Result<u64, NoMemory> {
        let value = match node {
            Node::Constant => 0,
            Node::Input(v) => word_at(self.inputs.as_slice(), v as usize),
            Node::And(l, r) => self.value(l) & self.value(r),
        };
        self.values.push(value)?;
        Ok(value)
    }

    fn value(&self, l: Lit) -> u64 {
        let word = word_at(self.values.as_slice(), l.node() as usize);
        if l.is_complement() { !word } else { word }
    }
}

/// The word at the place, or 0 behind the last one.
pub(crate) fn word_at(words: &[u64], at: usize) -> u64 {
    words.get(at).copied().unwrap_or(0)
}

/// Gives each variable one of its words, turned round a little.
fn put_random(inputs: &mut [u64], words: &[u64], round: usize) {
    for v in 0..inputs.len() {
        let word = word_at(words, v.saturating_mul(8).saturating_add(round % 8));
        inputs[v] = word.rotate_left((round / 8 % 64) as u32);
    }
}

/// Gives the model's variables its bits, with one or two of them turned in each assignment but the first.
fn put_model(inputs: &mut [u64], model: &Model) {
    let vars = model.vars.as_slice();
    let count = vars.len().min(model.bits.len());
    for i in 0..count {
        let v = vars[i] as usize;
        if v < inputs.len() {
            inputs[v] = if model.bits[i] { u64::MAX } else { 0 };
        }
    }
    if count == 0 {
        return;
    }
    for j in 1..64usize {
        turn(inputs, vars, (j - 1) % count, j);
        if j % 2 == 0 {
            turn(inputs, vars, (j / 2 + 7 * j) % count, j);
        }
    }
}

/// Turns the bit of the variable at this place in one assignment.
fn turn(inputs: &mut [u64], vars: &[u32], place: usize, assignment: usize) {
    if let Some(v) = vars.get(place)
        && (*v as usize) < inputs.len()
        && assignment < 64
    {
        let v = *v as usize;
        inputs[v] ^= 1u64 << (assignment as u32);
    }
}

/// Gives the model's variables its bits, with one of eight turned at random.
fn turn_some(inputs: &mut [u64], words: &[u64], round: usize, model: &Model) {
    let vars = model.vars.as_slice();
    for i in 0..vars.len().min(model.bits.len()) {
        let v = vars[i] as usize;
        if v < inputs.len() {
            let bits = if model.bits[i] { u64::MAX } else { 0 };
            let first = word_at(
                words,
                v.saturating_mul(8)
                    .saturating_add(round.wrapping_add(1) % 8),
            );
            let second = word_at(
                words,
                v.saturating_mul(8)
                    .saturating_add(round.wrapping_add(3) % 8),
            );
            inputs[v] = bits ^ inputs[v] & first & second;
        }
    }
}
