//! Class maps.

use class_search::class_fits::{Class, EnableTable};
use class_search::class_separations::Apart;
use event_nodes::{Counter, EventCircuit, EventGraph};
use sec_base::Tag;

/// Two circuits whose enabled latches are given classes one after the other.
#[derive(Drop)]
pub struct ClassMap {
    /// The circuits, with the classes of the latches that were taken.
    pub left: EventCircuit,
    pub right: EventCircuit,
    /// The graph of the enables of both.
    pub events: EventGraph,
    /// What the unfoldings of each circuit have visited.
    pub left_count: Counter,
    pub right_count: Counter,
    /// The classes of the enables that were met.
    pub table: EnableTable,
    /// The classes besides `always`.
    pub classes: Vec<Class>,
    /// What tells each two classes apart: (0, 1), (0, 2), (1, 2), (0, 3) and so on.
    pub aparts: Vec<Apart>,
    /// The latches that were taken, in order.
    pub taken: Vec<Tag>,
}
