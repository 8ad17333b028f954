//! Pairs that differ, and pairs that settle.

use sec_base::Seq;
use witness_report::PairName;

/// Two outputs that are compared, by their places among the outputs of both nets, and what the pair is called.
#[derive(Drop)]
pub struct OutputPair {
    pub name: PairName,
    pub left: u32,
    pub right: u32,
}

/// A pair of signals that is settled in both circuits in a cycle and differs there.
#[derive(Drop)]
pub struct Difference {
    /// The cycle, from 0.
    pub cycle: u32,
    pub pair: PairName,
    /// The value in the first circuit.
    pub left: bool,
    /// The value in the second circuit.
    pub right: bool,
}

/// Differences, in order.
pub type Differences = Seq<Difference>;

/// A pair of signals, and since when it is settled in both circuits.
#[derive(Drop)]
pub struct Settling {
    pub pair: PairName,
    /// The first cycle in which the pair is settled in both, from 0; none where it is so in no cycle.
    pub first: Option<u32>,
}

/// Each pair, in order, and since when it is settled in both circuits.
pub type Settlings = Seq<Settling>;

/// What two circuits show on a stimulus.
#[derive(Drop)]
pub struct Replayed {
    /// All differences, by cycle and then by pair: the outputs in the first circuit's order, then what the latches that are cut open
    /// take over, in the first circuit's order of latches.
    pub differences: Differences,
    /// Each pair, in the same order, and since when it is settled in both circuits.
    pub settlings: Settlings,
}
