//! Turns of latches.

ghost use Rattle.std.specs.Prelude.{IfOk};
ghost use Rattle.class_search.specs.event_order.Turns.{AreTurns};

use sec_base::NoMemory;
use std::alloc::Global;

/// When a latch's turn comes: by its depth, and then by its place among the latches of both circuits, those of the first circuit first.
#[derive(Clone, Copy, PartialEq, Eq, PartialOrd, Ord)]
pub(crate) struct Turn {
    pub(crate) depth: u32,
    /// The place among the latches of both circuits.
    pub(crate) number: usize,
}

/// The turns of the places that have a depth, in order.
pub(crate) fn turns_of(alloc: Global, depths: &[Option<u32>]) -> Result<Vec<Turn>, NoMemory>
    ensures { IfOk result (λ turns. AreTurns depths.now turns.items) }
{
    let mut turns = Vec::new(alloc);
    for number in 0..depths.len() {
        let place = depths[number];
        if let Some(depth) = place {
            turns.push(Turn { depth, number })?;
        }
    }
    turns.sort()?;
    Ok(turns)
}
