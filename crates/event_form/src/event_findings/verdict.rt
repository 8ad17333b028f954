//! The verdict of a comparison in the event form, with what shows it.

use crate::event_findings::event_witness::{PairName, UnshownFrame, Witness};
use crate::event_findings::unshown_pairs::ToldSeparations;

/// A pair that reaches another class than 0: a frame in which its sides differ, and what tells apart each two classes in the paths of its event
/// nodes.
#[derive(Drop)]
pub struct UnshownPair {
    pub frame: UnshownFrame,
    pub apart: ToldSeparations,
}

/// The answer of a comparison in the event form: the first of different, limit and not shown that some pair has, and equal where none has.
#[derive(Drop)]
pub enum EventVerdict {
    /// Every pair's event functions agree wherever both have care.
    Equal,
    /// A pair's event functions differ, and the sequence makes its signals differ in all runs.
    Different(Witness),
    /// The query of this pair wasn't decided within the number of conflicts.
    Limit(PairName),
    /// The pair isn't shown since latches are cut open, and reaches class 0 alone: the sequence makes it differ in all runs of the circuits as
    /// they are cut.
    Cut(Witness),
    /// The pair isn't shown, and reaches another class.
    Events(UnshownPair),
}
