//! Seeded runs of a graph whose variables are inputs and flip-flops, and what they don't tell apart.

use crate::classes::Classes;
use crate::lanes::{in_all, put_word, word_at};
use crate::stage::Stage;
use aig::{Aig, Lit, NoMemory};
use rand_core::{Rng, SeedableRng};
use rand_xoshiro::Xoshiro256PlusPlus;
use std::alloc::Global;

/// For how many cycles 64 runs are made at least.
const CYCLES: usize = 256;

/// For how many at most.
const MOST: usize = 512;

/// How many nodes are looked at in all cycles that there are beyond the least, roughly.
const WORK: usize = 1 << 20;

/// For how many cycles inputs lean to one side.
const SPELL: usize = 16;

/// The runs in which they do.
const LEANING: u64 = 0xFFFF_FFFF_0000_0000;

/// A flip-flop: its variable, its initial value, if it has one, and the literal of what it takes over.
#[derive(Clone, Copy)]
pub struct Flop {
    pub variable: u32,
    pub init: Option<bool>,
    pub next: Lit,
}

/// What the inputs of each cycle have to meet: that a literal of a graph is 1, each of whose variables is the one with its number here.
#[derive(Clone, Copy)]
pub struct Premise<'a> {
    pub graph: &'a Aig,
    pub lit: Lit,
    pub numbers: &'a [u32],
    /// Bits of the inputs by their numbers that make it 1.
    pub row: &'a [bool],
}

/// 64 runs in one cycle.
#[derive(Drop)]
pub(crate) struct Runs {
    flops: Vec<Flop>,
    /// To which side each input leans. Inputs have the first variables.
    sides: Vec<u64>,
    pub stage: Stage,
    pub generator: Xoshiro256PlusPlus,
}

/// Classes of nodes that have equal or complementary values in all of the runs from the initial values, whose inputs meet the premise. The
/// first so many variables are the inputs'.
pub fn candidates(
    alloc: Global,
    flops: Vec<Flop>,
    premise: &Premise<'_>,
    aig: &Aig,
    inputs: u32,
) -> Result<Classes, NoMemory> {
    let runs = Runs {
        flops,
        sides: vec![in alloc; 0u64; inputs as usize]?,
        stage: Stage::new(alloc, aig)?,
        generator: Xoshiro256PlusPlus::seed_from_u64(1),
    };
    let mut classes = Classes::new(alloc, aig.size(), runs)?;
    classes.runs.start();
    for cycle in 0..cycles(aig.size()) {
        if cycle % SPELL == 0 {
            classes.runs.lean();
        }
        classes.runs.draw(alloc, premise)?;
        classes.runs.stage.play(aig);
        if cycle == 0 {
            classes.set_phases();
        }
        classes.split(alloc, u64::MAX)?;
        classes.runs.carry(u64::MAX);
    }
    Ok(classes)
}

/// How many cycles are run of a graph of so many nodes.
fn cycles(nodes: u32) -> usize {
    let few = WORK / (nodes as usize).saturating_add(1);
    few.min(MOST).max(CYCLES)
}

impl Runs {
    /// Gives flip-flops what they begin with: the initial value where there is one, and else seeded values.
    pub(crate) fn start(&mut self) {
        for i in 0..self.flops.len() {
            if let Some(flop) = self.flops.get(i).copied() {
                let word = match flop.init {
                    Some(bit) => in_all(bit),
                    None => self.generator.next_u64(),
                };
                self.stage.put(flop.variable as usize, word);
            }
        }
    }

    /// Gives flip-flops seeded values.
    pub(crate) fn scatter(&mut self) {
        for i in 0..self.flops.len() {
            if let Some(flop) = self.flops.get(i).copied() {
                let word = self.generator.next_u64();
                self.stage.put(flop.variable as usize, word);
            }
        }
    }

    /// Gives each input a side to which it leans.
    pub(crate) fn lean(&mut self) {
        for v in 0..self.sides.len() {
            let word = self.generator.next_u64();
            put_word(&mut self.sides, v, word);
        }
    }

    /// Gives inputs seeded values: in half of the runs it is one of eight that isn't on the input's side.
    pub(crate) fn draw_any(&mut self) {
        for v in 0..self.sides.len() {
            let word = self.generator.next_u64();
            let few = word & self.generator.next_u64() & self.generator.next_u64();
            let word = word & !LEANING | (few ^ word_at(&self.sides, v)) & LEANING;
            self.stage.put(v, word);
        }
    }

    /// Gives inputs seeded values, and the premise's row in each run where these don't meet it.
    pub(crate) fn draw(&mut self, alloc: Global, premise: &Premise<'_>) -> Result<(), NoMemory> {
        self.draw_any();
        let met = self.met(alloc, premise)?;
        for v in 0..premise.row.len().min(self.sides.len()) {
            let word = word_at(&self.stage.words, v) & met;
            self.stage.put(v, word | in_all(premise.row[v]) & !met);
        }
        Ok(())
    }

    /// In which runs the inputs meet the premise.
    pub(crate) fn met(&self, alloc: Global, premise: &Premise<'_>) -> Result<u64, NoMemory> {
        if premise.lit.0 == Lit::TRUE.0 {
            return Ok(u64::MAX);
        }
        let mut stage = Stage::new(alloc, premise.graph)?;
        for v in 0..premise.numbers.len() {
            let word = word_at(&self.stage.words, premise.numbers[v] as usize);
            stage.put(v, word);
        }
        stage.play(premise.graph);
        Ok(stage.read(premise.lit))
    }

    /// Gives flip-flops what they take over. A run that doesn't count goes on from the first one that does.
    pub(crate) fn carry(&mut self, counts: u64) {
        let first = counts & counts.wrapping_neg();
        for i in 0..self.flops.len() {
            if let Some(flop) = self.flops.get(i).copied() {
                let word = self.stage.read(flop.next);
                let other = in_all(word & first != 0);
                let word = word & counts | other & !counts;
                self.stage.put(flop.variable as usize, word);
            }
        }
    }
}
