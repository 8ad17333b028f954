//! What a comparison finds.

ghost use Rattle.std.specs.Prelude.{◌≡◌, option_to_list};
ghost use Rattle.obligations.specs.outcome.Proofs.{limit_proofs, verdict_proofs};

use pair_decide::Proof;
use std::alloc::Global;
use std::mem;
use witness_report::frame_report::Frame;
use witness_report::{Bits, PairAnswer, PairName, Seq, Side, Witness, Word, Words};

/// What was found of one pair.
pub struct PairResult {
    pub name: PairName,
    /// The greater of the two sides' sequential depths, in cycles; in the event mode the number of event nodes that both sides reach
    /// together.
    pub size: u32,
    pub answer: PairAnswer,
    /// The clauses of the pair's query and the log of the search, exactly where the answer is `Limit`.
    pub proof: Option<Proof>,
}

/// It is let go by one call: an owner isn't taken apart field by field at each way out.
impl Drop for PairResult {
    fn drop(self) {
        let PairResult {
            name: _,
            size: _,
            answer: _,
            proof: _,
        } = self;
    }
}

impl PairResult {
    /// The proof of the limit, where the answer is `Limit`.
    pub fn into_proof(mut self) -> Option<Proof>
        ensures { result ≡ self.proof }
    {
        self.proof.take()
    }
}

/// The results of the pairs, in order.
pub type PairResults = Seq<PairResult>;

/// Where a comparison met the limit of conflicts.
#[derive(Drop)]
pub enum LimitAt {
    /// At the query whether some values of the inputs meet the assumption; its proof.
    Assume(Proof),
    /// At the query whether this latch of this circuit has a load enable; its proof.
    Recover(Side, Word, Proof),
    /// At the query whether this latch of this circuit loads when the other one does, or always where there is none; its proof.
    Class(Side, Word, Option<(Side, Word)>, Proof),
    /// At the query of this pair.
    Pair(PairName),
}

impl LimitAt {
    /// The proof of the limit; none where it was met at a pair, whose own result has it.
    pub fn into_proof(self) -> Option<Proof>
        ensures { option_to_list result ≡ limit_proofs self }
    {
        match self {
            LimitAt::Assume(proof) => Some(proof),
            LimitAt::Recover(_, _, proof) => Some(proof),
            LimitAt::Class(_, _, _, proof) => Some(proof),
            LimitAt::Pair(_) => None,
        }
    }
}

/// Two event classes, and a frame that tells them apart.
pub struct Separation {
    /// The number of the lower class.
    pub low: u32,
    /// The number of the higher class.
    pub high: u32,
    /// The latch of the lower class and its circuit; none where that class always loads.
    pub low_latch: Option<(Side, Word)>,
    /// The latch of the higher class and its circuit.
    pub high_latch: (Side, Word),
    /// The value of the lower class's enable.
    pub left: bool,
    /// The value of the higher class's enable.
    pub right: bool,
    pub frame: Frame,
}

/// It is let go by one call: an owner isn't taken apart field by field at each way out.
impl Drop for Separation {
    fn drop(self) {
        let Separation {
            low: _,
            high: _,
            low_latch: _,
            high_latch: _,
            left: _,
            right: _,
            frame: _,
        } = self;
    }
}

/// What tells classes apart, in their order.
pub type Separations = Seq<Separation>;

/// A pair whose functions differ over events, and what its classes are.
pub struct Unshown {
    pub pair: PairName,
    /// The value in the first circuit.
    pub left: bool,
    /// The value in the second circuit.
    pub right: bool,
    /// What gives the two values.
    pub frame: Frame,
    /// One separation for each two classes that occur in the paths of the pair's nodes.
    pub apart: Separations,
}

/// It is let go by one call: an owner isn't taken apart field by field at each way out.
impl Drop for Unshown {
    fn drop(self) {
        let Unshown {
            pair: _,
            left: _,
            right: _,
            frame: _,
            apart: _,
        } = self;
    }
}

/// What is shown where the functions of a pair differ, and the circuits themselves may still agree.
#[derive(Drop)]
pub enum Why {
    /// A sequence over the inputs and the latches that were cut open makes the pair of the cut circuits differ.
    Cut(Witness),
    /// The pair reaches a class that doesn't always load, and a frame makes its functions differ.
    Events(Unshown),
}

/// An input sequence that makes a pair differ in runs from the initial values, with the values of the latches in cycle 0.
pub struct ResetWitness {
    pub witness: Witness,
    /// A bit for each latch of the first circuit: its initial value where that is 0 or 1, and else the value that it has to begin with.
    pub left_power: Bits,
    /// The same of the second circuit.
    pub right_power: Bits,
}

/// It is let go by one call: an owner isn't taken apart field by field at each way out.
impl Drop for ResetWitness {
    fn drop(self) {
        let ResetWitness {
            witness: _,
            left_power: _,
            right_power: _,
        } = self;
    }
}

/// The answer of a comparison: the first of different, limit, not shown and equal that some pair has.
pub enum Verdict {
    /// Every pair's functions agree.
    Equal,
    /// A pair's functions differ, and the sequence shows it; no latch was cut open.
    Different(Witness),
    /// A pair's functions differ in a cycle of runs from the initial values, and the sequence and the power-ups show it.
    DifferentFrom(ResetWitness),
    /// A pair's functions differ, and latches were cut open or don't always load.
    NotShown(Why),
    /// A query wasn't decided within the number of conflicts.
    Limit(LimitAt),
}

/// It is let go by one call: an owner isn't taken apart field by field at each way out.
impl Drop for Verdict {
    fn drop(self) {
        match self {
            Verdict::Equal => {}
            Verdict::Different(_) => {}
            Verdict::DifferentFrom(_) => {}
            Verdict::NotShown(_) => {}
            Verdict::Limit(_) => {}
        }
    }
}

impl Verdict {
    /// The proof of the limit that was met before pairs were asked about; none of any other verdict.
    pub fn into_proof(self) -> Option<Proof>
        ensures { option_to_list result ≡ verdict_proofs self }
    {
        match self {
            Verdict::Limit(at) => at.into_proof(),
            _ => None,
        }
    }
}

/// All that a comparison finds.
pub struct Outcome {
    /// The number of inputs that both circuits have.
    pub inputs: u32,
    pub left_latches: u32,
    pub right_latches: u32,
    /// The name of the output of the assumption on the inputs, where there is one.
    pub assumed: Option<Word>,
    /// The names of the latches that were cut open.
    pub exposed: Words,
    /// The number of event classes besides the one that always loads.
    pub classes: u32,
    pub pairs: PairResults,
    /// The greatest depth of the pairs, in cycles; 0 in the event mode.
    pub through: u32,
    pub verdict: Verdict,
}

/// It is let go by one call: an owner isn't taken apart field by field at each way out.
impl Drop for Outcome {
    fn drop(self) {
        let Outcome {
            inputs: _,
            left_latches: _,
            right_latches: _,
            assumed: _,
            exposed: _,
            classes: _,
            pairs: _,
            through: _,
            verdict: _,
        } = self;
    }
}

impl Outcome {
    /// The results of the pairs, and the verdict.
    pub fn into_parts(mut self, alloc: Global) -> (PairResults, Verdict)
        ensures pairs { result.0 ≡ self.pairs }
        ensures verdict { result.1 ≡ self.verdict }
    {
        let pairs = mem::replace(&mut self.pairs, Seq::new(alloc));
        let verdict = mem::replace(&mut self.verdict, Verdict::Equal);
        (pairs, verdict)
    }
}
