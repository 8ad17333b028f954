//! The values of a graph's variables and nodes in 64 runs.

use crate::lanes::{in_all, put_word, word_at};
use aig::{Aig, Lit, NoMemory, Node};
use std::alloc::Global;

/// A word for each variable and for each node.
#[derive(Drop)]
pub(crate) struct Stage {
    pub words: Vec<u64>,
    pub values: Vec<u64>,
}

impl Stage {
    /// Of the graph, without a value.
    pub(crate) fn new(alloc: Global, aig: &Aig) -> Result<Stage, NoMemory> {
        Ok(Stage {
            words: vec![in alloc; 0u64; aig.vars() as usize]?,
            values: vec![in alloc; 0u64; aig.size() as usize]?,
        })
    }

    /// Gives the variable this word.
    pub(crate) fn put(&mut self, v: usize, word: u64) {
        put_word(&mut self.words, v, word);
    }

    /// The literal's values.
    pub(crate) fn read(&self, l: Lit) -> u64 {
        word_at(&self.values, (l.0 / 2) as usize) ^ in_all(l.0 % 2 == 1)
    }

    /// The node's values, by those of its operands or of its variable.
    pub(crate) fn value_of(&self, node: Node) -> u64 {
        match node {
            Node::Constant => 0,
            Node::Input(v) => word_at(&self.words, v as usize),
            Node::And(l, r) => self.read(l) & self.read(r),
        }
    }

    /// Gives the graph's nodes their values.
    pub(crate) fn play(&mut self, aig: &Aig) {
        for n in 0..aig.size() {
            let value = self.value_of(aig.node(n));
            put_word(&mut self.values, n as usize, value);
        }
    }
}
