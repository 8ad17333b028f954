//! What a run finds and reports.

use crate::status::Proofs;
use aiger_read::aiger_records::AigerKind;
use assume_laws::assume_shape::ShapeFault;
use blif_read::ReadKind;
use circuit_report::sim_report::Misfit;
use cycle_sim::pair_runs::Differences;
use elaborate::FlatError;
use obligations::outcome::{Outcome, Proof, Settings};
use sec_base::{Side, Text, Word, Words};
use text_numbers::TextKind;

/// A file of a job, by what it is.
#[derive(Clone, Copy)]
pub enum File {
    /// The first circuit, or the only one; or clauses.
    A,
    /// The second circuit; or a refutation.
    B,
    /// The assumption on the inputs.
    C,
    /// The stimulus.
    S,
}

/// What is wrong with a line of a file.
#[derive(Drop)]
pub enum LineFault {
    /// A line of a circuit.
    Circuit(ReadKind),
    /// The first line of a stimulus is no header.
    BadHeader,
    /// A line of a stimulus is no row.
    BadRow,
    /// A line of a text of clauses, or of one that refutes them.
    Clauses(TextKind),
}

/// What is wrong with a line of a text of pairs of latches.
#[derive(Clone, Copy)]
pub enum PairKind {
    /// It has not two words.
    BadPair,
    /// This circuit has no latch of the line's name for it.
    Unknown(Side),
    /// An earlier line has one of the names for the same circuit.
    Twice,
    /// B has an input of the first name, or another latch that has it once all have their new names.
    Taken,
}

/// Why a text of pairs of latches isn't taken.
#[derive(Clone, Copy)]
pub enum PairsFault {
    /// It has more than 16,777,216 bytes.
    TooLong,
    /// The number of a faulty line, from 1, and what is wrong with it.
    Line(u32, PairKind),
}

/// Why a job ends without an answer.
pub enum Refusal {
    /// The file has more than 16,777,216 bytes.
    TooLong(File),
    /// The first faulty line of a text, and what is wrong with it.
    Text(File, u32, LineFault),
    /// The first fault of a design.
    Design(File, FlatError),
    /// The first faulty record of an AIGER file, and what is wrong with it.
    Record(File, u32, AigerKind),
    /// The first name that one circuit has and the other lacks.
    Interface(Word),
    /// The unfoldings of the circuit's outputs weigh more than 2,000,000 together, where latches are cut open those of the cut
    /// circuit's; or a latch is in its own cone, and that cone weighs more; or all inputs, latches and gates do, each once.
    TooLarge(Side),
    /// The circuits have too many enabled latches, event classes or event nodes.
    TooManyEvents,
    /// Why the circuit that is to be assumed is no assumption on the inputs of the others.
    Assume(ShapeFault),
    /// No values of the inputs meet the assumption.
    Vacuous,
    /// What doesn't fit the circuit.
    Misfit(Misfit),
    /// No output has this name.
    Pair(Word),
    /// What is wrong with the text of pairs of latches.
    Pairs(PairsFault),
}

/// It is let go by one call: an owner isn't taken apart variant by variant at each way out.
impl Drop for Refusal {
    fn drop(self) {
        match self {
            Refusal::TooLong(_) => {}
            Refusal::Text(_, _, _) => {}
            Refusal::Design(_, _) => {}
            Refusal::Record(_, _, _) => {}
            Refusal::Interface(_) => {}
            Refusal::TooLarge(_) => {}
            Refusal::TooManyEvents => {}
            Refusal::Assume(_) => {}
            Refusal::Vacuous => {}
            Refusal::Misfit(_) => {}
            Refusal::Pair(_) => {}
            Refusal::Pairs(_) => {}
        }
    }
}

/// What a search of the clauses of a pair of outputs finds in place of a refutation.
#[derive(Drop)]
pub enum Unrefuted {
    /// Some values meet all clauses.
    Satisfiable,
    /// The search met this limit of conflicts; the clauses, and its log.
    Limit(u32, Proof),
}

/// What is said of two circuits whose latches are put into blocks, whose pairs are asked whether they have care, that are searched for a
/// difference, or which were run on one stimulus.
#[derive(Clone, Copy)]
pub enum Judgement {
    /// Each output agrees: for all values that are constant on the blocks, or in every cycle; or each pair's functions agree, and some frame has
    /// care for it; or no pair differs on the stimulus, and some is settled.
    Equal,
    /// A pair's functions differ, and the circuits with them; or an output differs in a cycle; or some pair differs on the stimulus.
    Different,
    /// Some output differs for values that are constant on the blocks; or no frame has care for a pair, or the functions of one differ where that
    /// isn't known of the circuits; or none differs in the cycles that were searched; or no pair is settled on the stimulus.
    NotShown,
    /// A query wasn't decided within the number of conflicts.
    Limit,
}

/// What a report can be made of.
#[derive(Drop)]
pub enum Finding {
    /// The words are no job.
    Words,
    Refused(Refusal),
    /// The names of the latches of a cycle of the circuit's latch graph, beginning with the least.
    Cyclic(Side, Words),
    /// The names of the latches of a cycle of the circuit's latch graph that no latch breaks that both circuits have under one name,
    /// in the same form.
    Unpaired(Side, Words),
    /// The outcome of a comparison that was made with these settings.
    Checked(Outcome, Settings),
    /// The report of one circuit, or of a refutation that is accepted.
    Done(Text),
    /// The outcome of the comparison of a generated pair, and its report.
    Generated(Outcome, Text),
    /// The differences of two circuits that were run on one stimulus.
    Replayed(Differences),
    /// The circuit and the name of its latch of which it wasn't found out within the limit of conflicts whether it has a load enable,
    /// and the proof of that.
    Undecided(Side, Word, Proof),
    /// The clauses of a pair of outputs aren't refuted.
    Unrefuted(Unrefuted),
    /// What is said of two circuits by blocks of their latches, by pairs with care, by a search or on a stimulus, the proofs of the queries
    /// that met the limit, and the report.
    Judged(Judgement, Proofs, Text),
}

/// Why the work on the files ends without a report.
#[derive(Clone, Copy)]
pub enum Stop {
    ReadFault,
    NoMemory,
}
