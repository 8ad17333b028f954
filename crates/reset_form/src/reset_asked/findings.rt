//! What is found of pairs that are compared from the initial values.

use obligations::outcome::{PairName, PairResults, ResetWitness};

/// What is found of the pairs of two circuits.
#[derive(Drop)]
pub struct ResetFindings {
    /// One result for each pair, in order.
    pub pairs: PairResults,
    /// The greatest depth of the pairs, in cycles.
    pub through: u32,
    pub verdict: ResetVerdict,
}

/// The answer of a comparison from the initial values: the first of different, limit and equal that some pair has.
#[derive(Drop)]
pub enum ResetVerdict {
    /// Every pair's functions agree in each cycle up to the pair's depth.
    Equal,
    /// A pair's functions differ in a cycle, and the sequence and the power-ups show it.
    Different(ResetWitness),
    /// A query of this pair wasn't decided within the number of conflicts.
    Limit(PairName),
}
