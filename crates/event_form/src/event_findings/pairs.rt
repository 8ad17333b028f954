//! The pairs that are compared.

use crate::event_findings::unshown_pairs::SignalPair;
use sec_base::Words;

/// What is compared of two circuits in the event form.
#[derive(Drop)]
pub struct EventPairs<'a> {
    /// The pairs, in order.
    pub pairs: &'a [SignalPair],
    /// The depth of each, where the self-edges of enabled latches aren't counted.
    pub depths: &'a [u32],
    /// The names of the inputs, by their numbers.
    pub names: &'a Words,
    /// Whether latches are cut open.
    pub cut: bool,
}
