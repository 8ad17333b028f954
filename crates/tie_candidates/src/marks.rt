//! Which ties of a cycle don't hold in 64 runs.

ghost use Rattle.std.specs.Prelude.{◌<◌, length};

use crate::lanes::{in_all, put_word, word_at};
use crate::scenes::Frame;
use crate::stage::Stage;
use aig::{NoMemory, Node};
use circuit_laws::signal_laws::Anchor;
use std::alloc::Global;

/// The runs in which all of a model's variables have its bits.
pub(crate) const LIKE: u64 = 0xFFFF_FFFF;

/// How often variables get the values of gates at most.
const MOST_PASSES: usize = 16;

/// In which runs nodes' ties don't hold, by the nodes' numbers.
#[derive(Drop)]
pub struct Marks {
    apart: Vec<u64>,
    /// In which all do.
    pub(crate) holds: u64,
}

impl Marks {
    /// Of no node.
    pub(crate) fn new(alloc: Global) -> Marks {
        Marks {
            apart: Vec::new(alloc),
            holds: u64::MAX,
        }
    }

    /// Of the cycle before the one that is asked. Nodes get the values of what they are tied to, and so do variables.
    pub(crate) fn of(
        alloc: Global,
        frame: &Frame<'_>,
        stage: &mut Stage,
    ) -> Result<Marks, NoMemory> {
        for _n in 0..frame.gates.depth.min(MOST_PASSES) {
            let _marks = Marks::pass(alloc, frame, stage)?;
            substitute(frame, stage);
        }
        Marks::pass(alloc, frame, stage)
    }

    /// The same, where each variable that a gate is tied to has its value already.
    fn pass(alloc: Global, frame: &Frame<'_>, stage: &mut Stage) -> Result<Marks, NoMemory> {
        let mut marks = Marks::new(alloc);
        for n in 0..frame.base.size() {
            marks.put(frame, stage, n)?;
        }
        Ok(marks)
    }

    /// Of one node more, where those before have what they are tied to.
    fn put(&mut self, frame: &Frame<'_>, stage: &mut Stage, n: u32) -> Result<(), NoMemory>
        requires { n < length frame.now.base.now }
    {
        let node = frame.base.node(n);
        let own = stage.value_of(node);
        let tied = tied_word(frame.ties, &stage.values, n, own);
        let apart = match node {
            Node::Input(v) => {
                stage.put(v as usize, tied);
                0
            }
            _ => own ^ tied,
        };
        put_word(&mut stage.values, n as usize, tied);
        self.holds &= !apart;
        self.apart.push(apart)?;
        Ok(())
    }

    /// Picks some ties more, at most so many: of those that hold in no run that is like the model, or else of those that don't hold in the
    /// first one; and all where there are none.
    pub(crate) fn pick(&self, picked: &mut [bool], most: usize) {
        if !self.pick_from(LIKE, picked, most) && !self.pick_from(1, picked, most) {
            pick_all(picked);
        }
    }

    /// Picks at most so many more that hold in none of these runs. Whether there is one.
    fn pick_from(&self, runs: u64, picked: &mut [bool], most: usize) -> bool {
        let mut left = most;
        for i in 0..self.apart.len() {
            if left > 0 && i < picked.len() && self.apart[i] & runs == runs && !picked[i] {
                picked[i] = true;
                left -= 1;
            }
        }
        left < most
    }
}

/// Gives variables the values of their gates.
fn substitute(frame: &Frame<'_>, stage: &mut Stage) {
    for i in 0..frame.gates.list.len() {
        let it = frame.gates.list[i];
        if it.gate < frame.base.size() {
            let word = stage.value_of(frame.base.node(it.gate)) ^ in_all(it.flipped);
            stage.put(it.variable as usize, word);
        }
    }
}

/// Picks all.
pub(crate) fn pick_all(picked: &mut [bool]) {
    for i in 0..picked.len() {
        picked[i] = true;
    }
}

/// What the node has by its tie, where those before it have these values; its own ones, where it has none.
fn tied_word(ties: &[Anchor], values: &[u64], n: u32, own: u64) -> u64 {
    match ties.get(n as usize) {
        None => own,
        Some(Anchor::Bit(bit)) => in_all(*bit),
        Some(Anchor::Place { place, flipped }) => {
            if *place < n as usize {
                word_at(values, *place) ^ in_all(*flipped)
            } else {
                own
            }
        }
    }
}
