//! Frames.

use sec_base::{Ids, Seq, Word};

/// The value of an input at an event node.
#[derive(Drop)]
pub struct Spot {
    /// The classes of the steps from the root to the node; empty for the root.
    pub path: Ids,
    pub input: Word,
    pub bit: bool,
}

/// Spots, in order.
pub type Spots = Seq<Spot>;

/// The values of the variables of a query in the event form, in their order.
#[derive(Drop)]
pub struct Frame {
    pub spots: Spots,
}
