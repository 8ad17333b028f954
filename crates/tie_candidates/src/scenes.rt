//! What a counterexample of an inductive step tells: 64 assignments that are like it split the classes, and so do runs that go on from those
//! that count.

use crate::classes::Classes;
use crate::lanes::in_all;
use crate::marks::Marks;
use crate::runs::{Premise, Runs};
use crate::substitution::Substitution;
use aig::{Aig, NoMemory};
use circuit_laws::signal_laws::Anchor;
use rand_core::Rng;
use rand_xoshiro::Xoshiro256PlusPlus;
use std::alloc::Global;
use sweep_candidates::Model;

/// How often 64 assignments are made of a model at most.
const SCENES: usize = 8;

/// For how many cycles runs go on from the one that is asked at most.
const AHEAD: usize = 32;

/// In how many runs behind those that are like the model one bit is turned.
const SINGLE: usize = 24;

/// The runs behind these, in which bits are turned at random.
const SOME: u64 = 0xFF00_0000_0000_0000;

/// What is asked of the nodes of a graph in one cycle.
#[derive(Clone, Copy)]
pub struct Frame<'a> {
    /// The graph whose nodes are tied.
    pub base: &'a Aig,
    /// The ties that hold in the cycle before; none where there is no such cycle, and flip-flops have their initial values.
    pub ties: &'a [Anchor],
    /// Which variables have the values of gates in it.
    pub gates: &'a Substitution,
    /// What inputs meet in both cycles.
    pub premise: Premise<'a>,
    /// Behind how many variables of a model those of the inputs in the cycle stand that is asked. The first ones are the graph's, in the
    /// cycle before.
    pub inputs: u32,
}

/// What came of some assignments.
#[derive(Drop)]
pub struct Lesson {
    /// Whether the node that was asked last is told apart from its anchor.
    pub tells: bool,
    /// Whether there are more classes since.
    pub splits: bool,
    pub marks: Marks,
}

/// Splits the classes by the nodes' values under assignments that are like the model, as long as there are more classes each time: by those
/// that count, where all ties hold in the cycle before and the premise is met.
pub fn learn(
    alloc: Global,
    classes: &mut Classes,
    frame: &Frame<'_>,
    model: &Model,
) -> Result<Lesson, NoMemory> {
    let lesson = see(alloc, classes, frame, model)?;
    let mut goes = lesson.splits;
    for _n in 1..SCENES {
        if goes {
            goes = see(alloc, classes, frame, model)?.splits;
        }
    }
    Ok(lesson)
}

/// No variable has a given bit.
pub fn no_model(alloc: Global) -> Model {
    Model {
        vars: Vec::new(alloc),
        bits: Vec::new(alloc),
    }
}

/// The same by 64 assignments.
fn see(
    alloc: Global,
    classes: &mut Classes,
    frame: &Frame<'_>,
    model: &Model,
) -> Result<Lesson, NoMemory> {
    classes.turn = classes.turn.wrapping_add(1);
    let turn = classes.turn;
    let marks = begin(alloc, &mut classes.runs, frame, model, turn)?;
    classes.runs.draw_any();
    put_model(&mut classes.runs, model, frame.inputs, turn);
    let counts = marks.holds & classes.runs.met(alloc, &frame.premise)?;
    let splits = counts != 0 && go_on(alloc, classes, frame, counts)?;
    Ok(Lesson {
        tells: classes.is_apart(),
        splits,
        marks,
    })
}

/// Gives flip-flops the values that they have in the cycle that is asked. In which runs ties hold in the cycle before, and the premise is met.
fn begin(
    alloc: Global,
    runs: &mut Runs,
    frame: &Frame<'_>,
    model: &Model,
    turn: usize,
) -> Result<Marks, NoMemory> {
    if frame.ties.is_empty() {
        runs.start();
        return Ok(Marks::new(alloc));
    }
    runs.scatter();
    runs.draw_any();
    put_model(runs, model, 0, turn);
    let mut marks = Marks::of(alloc, frame, &mut runs.stage)?;
    marks.holds &= runs.met(alloc, &frame.premise)?;
    runs.carry(u64::MAX);
    Ok(marks)
}

/// Splits the classes by the nodes' values in the cycle that is asked, in the runs that count, and in those after it, as long as there are
/// more in each: what is tied in each cycle that follows on these ties is so there. Whether there are more in the end.
fn go_on(
    alloc: Global,
    classes: &mut Classes,
    frame: &Frame<'_>,
    counts: u64,
) -> Result<bool, NoMemory> {
    classes.runs.stage.play(frame.base);
    let splits = classes.split(alloc, counts)?;
    let mut goes = splits;
    let mut from = counts;
    for _n in 0..AHEAD {
        if goes {
            classes.runs.carry(from);
            classes.runs.draw(alloc, &frame.premise)?;
            classes.runs.stage.play(frame.base);
            goes = classes.split(alloc, u64::MAX)?;
            from = u64::MAX;
        }
    }
    Ok(splits)
}

/// Gives variables the bits of those of the model that stand behind so many, or bits near them.
fn put_model(runs: &mut Runs, model: &Model, behind: u32, turn: usize) {
    let count = model.vars.len().min(model.bits.len());
    for i in 0..count {
        if model.vars[i] >= behind {
            let at = place_behind(i, turn.wrapping_mul(SINGLE), count);
            let word = near(in_all(model.bits[i]), at, &mut runs.generator);
            runs.stage.put((model.vars[i] - behind) as usize, word);
        }
    }
}

/// The place in a circle of so many that stands so far behind, where this one is the first.
fn place_behind(place: usize, from: usize, count: usize) -> usize {
    let first = from % count.max(1);
    if place < first {
        place.saturating_add(count).saturating_sub(first)
    } else {
        place - first
    }
}

/// The word, but for one of the runs, where this is less than `SINGLE`, and for some of the last ones.
fn near(word: u64, at: usize, generator: &mut Xoshiro256PlusPlus) -> u64 {
    let few = generator.next_u64() & generator.next_u64() & generator.next_u64();
    let one = if at < SINGLE {
        1 << (32 + at as u32)
    } else {
        0
    };
    word ^ one ^ few & SOME
}
