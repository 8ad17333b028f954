//! What is found of pairs that are compared in the plain form.

use outcome_fits::{PairResults, Verdict};

/// What is found of the pairs of two circuits.
#[derive(Drop)]
pub struct Findings {
    /// One result for each pair, in order.
    pub pairs: PairResults,
    /// The greatest depth of the pairs, in cycles.
    pub through: u32,
    pub verdict: Verdict,
}
