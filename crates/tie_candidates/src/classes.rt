//! Classes of nodes that may be equal or complements.

use crate::lanes::{hashed, in_all, word_at};
use crate::marks::{Marks, pick_all};
use crate::runs::Runs;
use aig::{Aig, NoMemory, Node};
use base_tables::PlaceTable;
use circuit_laws::signal_laws::Anchor;
use std::alloc::Global;

/// How many ties of the cycle before stay picked for the next query at most.
const MOST_PICKED: usize = 128;

/// The class of the constant 0, and behind it that of each node by its number. A node whose phase is set has its complement there.
#[derive(Drop)]
pub struct Classes {
    blocks: Vec<u32>,
    /// The first entry of each class.
    firsts: Vec<u32>,
    phases: Vec<bool>,
    /// How many ties were dropped at the limit.
    pub drops: u32,
    /// By what they are split.
    pub(crate) runs: Runs,
    /// How many models were looked at.
    pub(crate) turn: usize,
    /// The entries that are asked whether they are one.
    asked: (usize, usize),
    /// Which ties of the cycle before queries are asked under.
    picked: Vec<bool>,
}

impl Classes {
    /// One class of the constant and of so many nodes.
    pub(crate) fn new(alloc: Global, nodes: u32, runs: Runs) -> Result<Classes, NoMemory> {
        let entries = (nodes as usize).saturating_add(1);
        Ok(Classes {
            blocks: vec![in alloc; 0; entries]?,
            firsts: vec![in alloc; 0; 1]?,
            phases: vec![in alloc; false; entries]?,
            drops: 0,
            runs,
            turn: 0,
            asked: (0, 0),
            picked: Vec::new(alloc),
        })
    }

    /// Complements each node whose value is 1 in the first run.
    pub(crate) fn set_phases(&mut self) {
        for entry in 0..self.phases.len() {
            self.phases[entry] = self.word(entry) % 2 == 1;
        }
    }

    /// Whether the node's class is its anchor's. The node is the one that was asked last, from now on.
    pub fn asks(&mut self, place: usize, anchor: Anchor) -> bool {
        let other = match anchor {
            Anchor::Bit(_) => 0,
            Anchor::Place { place, flipped: _ } => place.saturating_add(1),
        };
        self.asked = (place.saturating_add(1), other);
        !self.is_apart()
    }

    /// Whether the node that was asked last is in another class than its anchor since.
    pub fn is_apart(&self) -> bool {
        self.block_of(self.asked.0) != self.block_of(self.asked.1)
    }

    /// Which ties of the cycle before the next query is asked under, of so many: those that were picked for the last ones, as long as they
    /// are few.
    pub fn begin_picking(&mut self, alloc: Global, ties: usize) -> Result<(), NoMemory> {
        if self.picked.len() != ties || count_of(&self.picked) > MOST_PICKED {
            self.picked = vec![in alloc; false; ties]?;
        }
        Ok(())
    }

    /// Picks some more by these marks, at most so many.
    pub fn pick(&mut self, marks: &Marks, most: usize) {
        marks.pick(&mut self.picked, most);
    }

    /// Picks all.
    pub fn pick_all(&mut self) {
        pick_all(&mut self.picked);
    }

    /// Those that are picked.
    pub fn picked(&self) -> &[bool] {
        &self.picked
    }

    fn phase(&self, entry: usize) -> bool {
        self.phases.get(entry).copied().unwrap_or(false)
    }

    /// The entry's values in the runs.
    fn word(&self, entry: usize) -> u64 {
        if entry == 0 {
            return 0;
        }
        word_at(&self.runs.stage.values, entry - 1) ^ in_all(self.phase(entry))
    }

    fn block_of(&self, entry: usize) -> u32 {
        self.blocks.get(entry).copied().unwrap_or(0)
    }

    /// The first entry of the class.
    fn first_of(&self, block: u32) -> usize {
        self.firsts.get(block as usize).copied().unwrap_or(0) as usize
    }

    /// Splits the classes by the nodes' values in the runs that count. Whether there are more then.
    pub(crate) fn split(&mut self, alloc: Global, counts: u64) -> Result<bool, NoMemory> {
        let before = self.firsts.len();
        let mut table = PlaceTable::new(alloc);
        for entry in 0..self.blocks.len() {
            let block = self.block_of(entry);
            let apart = (self.word(entry) ^ self.word(self.first_of(block))) & counts;
            if apart != 0 {
                let number = numbered(&mut table, block, hashed(apart))?;
                self.put(entry, before.saturating_add(number as usize))?;
            }
        }
        Ok(self.firsts.len() > before)
    }

    /// Puts the entry into the class of this number, which is its first one where that is a new class.
    fn put(&mut self, entry: usize, class: usize) -> Result<(), NoMemory> {
        if class >= self.firsts.len() {
            self.firsts.push(entry.min(1 << 30) as u32)?;
        }
        if entry < self.blocks.len() {
            self.blocks[entry] = class.min(u32::MAX as usize) as u32;
        }
        Ok(())
    }

    /// Puts the node that was asked last into a class of its own, since its tie isn't shown within the limit.
    pub fn drop_tie(&mut self) -> Result<(), NoMemory> {
        self.drops = self.drops.saturating_add(1);
        let class = self.firsts.len();
        self.put(self.asked.0, class)
    }

    /// How many entries each class has.
    fn sizes(&self, alloc: Global) -> Result<Vec<u32>, NoMemory> {
        let mut sizes = vec![in alloc; 0u32; self.firsts.len()]?;
        for entry in 0..self.blocks.len() {
            let block = self.blocks[entry] as usize;
            if block < sizes.len() {
                sizes[block] = sizes[block].saturating_add(1);
            }
        }
        Ok(sizes)
    }

    /// Whether a quarter of the flip-flops or more are in classes of their own, where the first so many variables are the inputs': then they
    /// may have been moved, and have what no node has in the same cycle.
    pub fn are_apart(&self, alloc: Global, base: &Aig, inputs: u32) -> Result<bool, NoMemory> {
        let sizes = self.sizes(alloc)?;
        let mut flops = 0usize;
        let mut apart = 0usize;
        for n in 0..base.size() {
            if is_behind(base.node(n), inputs) {
                let block = self.block_of((n as usize).saturating_add(1)) as usize;
                flops = flops.saturating_add(1);
                if sizes.get(block).copied() == Some(1) {
                    apart = apart.saturating_add(1);
                }
            }
        }
        Ok(apart > 0 && apart >= flops / 4)
    }

    /// What each node is tied to: the first of its class.
    pub fn anchors(&self, alloc: Global) -> Result<Vec<Anchor>, NoMemory> {
        let mut anchors = Vec::new(alloc);
        for entry in 1..self.blocks.len() {
            anchors.push(self.anchor(entry))?;
        }
        Ok(anchors)
    }

    /// What the entry is tied to. An entry before the first of its class is tied to itself.
    fn anchor(&self, entry: usize) -> Anchor {
        let first = self.first_of(self.block_of(entry)).min(entry);
        let flipped = self.phase(first) != self.phase(entry);
        if first == 0 {
            return Anchor::Bit(flipped);
        }
        Anchor::Place {
            place: first.saturating_sub(1),
            flipped,
        }
    }
}

/// Whether the node is a variable's behind so many.
fn is_behind(node: Node, inputs: u32) -> bool {
    match node {
        Node::Input(v) => v >= inputs,
        _ => false,
    }
}

/// How many are picked.
fn count_of(picked: &[bool]) -> usize {
    let mut count = 0usize;
    for i in 0..picked.len() {
        if picked[i] {
            count = count.saturating_add(1);
        }
    }
    count
}

/// The number of a class and a key. A table that is full counts as no memory.
fn numbered(table: &mut PlaceTable, block: u32, key: u32) -> Result<u32, NoMemory> {
    if table.len() >= u32::MAX - 1 {
        return Err(NoMemory);
    }
    table.intern(block, key)
}
