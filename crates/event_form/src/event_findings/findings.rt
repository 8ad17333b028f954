//! What is found of pairs.

use crate::event_findings::event_witness::PairResults;
use crate::event_findings::verdict::EventVerdict;

/// What is found of the pairs of two circuits.
#[derive(Drop)]
pub struct EventFindings {
    /// One result for each pair, in order.
    pub pairs: PairResults,
    pub verdict: EventVerdict,
}
