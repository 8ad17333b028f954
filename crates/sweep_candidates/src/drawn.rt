//! Values of all nodes under drawn assignments. No clause sees it.

use crate::columns::word_at;
use aig::{Lit, NoMemory, Node};
use rand_core::SeedableRng;
use rand_core::utils::NextWord;
use rand_xoshiro::Xoshiro256PlusPlus;
use std::alloc::Global;

/// The most words of a node: 1,536 assignments.
const WORDS: usize = 24;

/// The most words of all nodes.
const ROOM: usize = 1 << 21;

/// Words of each node, those of one behind those of the other: as many for each, whose bits are the node's values.
#[derive(Drop)]
pub(crate) struct Drawn {
    words: Vec<u64>,
    each: usize,
}

impl Drawn {
    /// For no nodes, without words.
    pub(crate) fn none(alloc: Global) -> Drawn {
        Drawn {
            words: Vec::new(alloc),
            each: 0,
        }
    }

    /// For so many nodes.
    pub(crate) fn new(alloc: Global, nodes: u32) -> Result<Drawn, NoMemory> {
        let nodes = nodes.max(1) as usize;
        let each = (ROOM / nodes).min(WORDS);
        Ok(Drawn {
            words: Vec::with_capacity(alloc, each.saturating_mul(nodes))?,
            each,
        })
    }

    /// Puts the values of one more node behind the others'.
    pub(crate) fn add(&mut self, node: Node) -> Result<(), NoMemory> {
        match node {
            Node::Constant => self.put_zeros(),
            Node::Input(v) => self.put_random(v),
            Node::And(l, r) => self.put_and(l, r),
        }
    }

    /// The words of the last node.
    pub(crate) fn last(&self) -> &[u64] {
        let words = self.words.as_slice();
        let from = words.len().saturating_sub(self.each);
        &words[from..]
    }

    fn put_zeros(&mut self) -> Result<(), NoMemory> {
        for _ in 0..self.each {
            self.words.push(0)?;
        }
        Ok(())
    }

    /// The first words that xoshiro256++ draws, seeded with the number of the variable.
    fn put_random(&mut self, v: u32) -> Result<(), NoMemory> {
        let mut generator = Xoshiro256PlusPlus::seed_from_u64(u64::from(v));
        for _ in 0..self.each {
            self.words.push(generator.next_word())?;
        }
        Ok(())
    }

    fn put_and(&mut self, l: Lit, r: Lit) -> Result<(), NoMemory> {
        let (left, right) = (self.place(l), self.place(r));
        let (flip_left, flip_right) = (flip_of(l), flip_of(r));
        for i in 0..self.each {
            let words = self.words.as_slice();
            let first = word_at(words, left.saturating_add(i)) ^ flip_left;
            let second = word_at(words, right.saturating_add(i)) ^ flip_right;
            self.words.push(first & second)?;
        }
        Ok(())
    }

    /// Where the words of the literal's node stand.
    fn place(&self, l: Lit) -> usize {
        self.each.saturating_mul(l.node() as usize)
    }
}

/// The word that complements those of the node, if the literal is its complement.
fn flip_of(l: Lit) -> u64 {
    if l.is_complement() { u64::MAX } else { 0 }
}
