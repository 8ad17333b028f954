//! What is known of the signals of a graph while its latches are tried.

ghost use Rattle.std.specs.Prelude.{◌≡◌, ◌≢◌, ℕ, ◌<◌, All, true, false, length, slice_get, Some, IfOk};
ghost use Rattle.latch_graph.specs.minimal_cut.graph_components.flat_net.LatchAt.{LatchAt};
ghost use Rattle.latch_graph.specs.minimal_cut.graph_components.Node.{Node};
ghost use Rattle.latch_graph.specs.minimal_cut.graph_components.Graph.{AreNodes};
ghost use Rattle.latch_graph.specs.minimal_cut.Marks.{AreFirst};

use crate::minimal_cut::graph_components::{LatchAt, NoMemory, Node};
use std::alloc::Global;

/// Which way a walk goes.
#[derive(Clone, Copy)]
pub enum Direction {
    /// From a signal to those that it reads.
    Back,
    /// From a signal to those that read it.
    Ahead,
}

impl Direction {
    pub(crate) fn is(self, other: Direction) -> bool
        ensures yes { result ≡ true → self ≡ other }
        ensures no { result ≡ false → self ≢ other }
    {
        match self {
            Direction::Back => matches!(other, Direction::Back),
            Direction::Ahead => matches!(other, Direction::Ahead),
        }
    }
}

/// What is known of a signal while latches are tried.
#[derive(Clone, Copy)]
pub enum Mark {
    /// A latch that is taken out.
    Out,
    /// The signal was last met in this turn, by the walk of this direction; 0 is before the first turn.
    Met(Direction, u32),
}

/// Marks of so many signals that weren't met.
fn none_met(alloc: Global, count: usize) -> Result<Vec<Mark>, NoMemory>
    ensures size { IfOk result (λ marks. length marks.items ≡ count) }
    ensures none { IfOk result (λ marks. (s : ℕ) (mark : Mark) → slice_get marks.items s ≡ Some mark → mark ≡ Mark.Met Direction.Back 0) }
{
    Ok(vec![in alloc; Mark::Met(Direction::Back, 0); count]?)
}

/// The marks before the first turn: the latches at these positions are taken out.
pub(crate) fn first_marks(
    alloc: Global,
    nodes: &[Node],
    latches: &[LatchAt],
    positions: &[u32],
) -> Result<Vec<Mark>, NoMemory>
    requires nodes { AreNodes nodes.now latches.now }
    requires within { All (λ j. j < length latches.now) positions.now }
    ensures size { IfOk result (λ marks. length marks.items ≡ length nodes.now) }
    ensures first { IfOk result (λ marks. AreFirst latches.now positions.now (length positions.now) marks.items) }
{
    let mut marks = none_met(alloc, nodes.len())?;
    mark_out(latches, positions, marks.as_mut_slice());
    Ok(marks)
}

fn mark_out(latches: &[LatchAt], positions: &[u32], marks: &mut [Mark])
    requires within { All (λ j. j < length latches.now) positions.now }
    requires out { (j : ℕ) (l : LatchAt) → slice_get latches.now j ≡ Some l → l.out.0 < length marks.old }
    requires none { (s : ℕ) (mark : Mark) → slice_get marks.old s ≡ Some mark → mark ≡ Mark.Met Direction.Back 0 }
    ensures { AreFirst latches.now positions.now (length positions.now) marks.new }
{
    for i in 0..positions.len() {
        let position = positions[i] as usize;
        let signal = latches[position].out.0 as usize;
        marks[signal] = Mark::Out;
    }
}
