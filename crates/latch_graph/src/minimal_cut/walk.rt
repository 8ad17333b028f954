//! Walks from a latch that is put back, through gates and latches that aren't taken out: back along what is read, and
//! ahead along what reads.

ghost use Rattle.std.specs.Prelude.{◌≡◌, ℕ, ◌+◌, ◌<◌, [], ◌∷◌, true, false, length, slice_get, slice_set, Some, OnOk, IfOk};
ghost use Rattle.latch_graph.specs.minimal_cut.graph_components.flat_net.Signal.{Signal};
ghost use Rattle.latch_graph.specs.minimal_cut.graph_components.Node.{Node};
ghost use Rattle.latch_graph.specs.declared.minimal_cut.marks.Mark.{Mark};
ghost use Rattle.latch_graph.specs.minimal_cut.Readers.{AreReaders, WayBack};
ghost use Rattle.latch_graph.specs.minimal_cut.Marks.{AreMarks, IsPutBack, IsBlocked};
ghost use Rattle.latch_graph.specs.minimal_cut.Walk.{IsWalk, IsLater, Meets, HasMet, unseen_count};

use crate::minimal_cut::graph_components::{NoMemory, Node};
use crate::minimal_cut::marks::{Direction, Mark};
use std::alloc::Global;

/// Puts the latch of the root back, and tells whether that closes a cycle. A walk back and a walk ahead go on in turn,
/// until they meet or one of them has ended.
pub(crate) fn closes_cycle(
    alloc: Global,
    nodes: &[Node],
    readers: &[Node],
    marks: &mut [Mark],
    root: u32,
    turn: u32,
) -> Result<bool, NoMemory>
    requires readers { AreReaders nodes.now readers.now }
    requires marks { AreMarks nodes.now marks.old turn }
    requires root { slice_get marks.old root ≡ Some Mark.Out }
    ensures yes { IfOk result (λ found. found ≡ true → WayBack nodes.now (IsBlocked marks.new) root root) }
    ensures no { IfOk result (λ found. found ≡ false → WayBack nodes.now (IsBlocked marks.new) root root → ⊥) }
    ensures marks { OnOk result (AreMarks nodes.now marks.new (turn + 1)) }
    ensures back { OnOk result (IsPutBack marks.old marks.new root) }
{
    let mut behind = list_of(alloc, root)?;
    let mut ahead = list_of(alloc, root)?;
    walk_both(nodes, readers, marks, &mut behind, &mut ahead, root, turn)
}

/// The same, where both walks begin at the root.
fn walk_both(
    nodes: &[Node],
    readers: &[Node],
    marks: &mut [Mark],
    behind: &mut Vec<u32>,
    ahead: &mut Vec<u32>,
    root: u32,
    turn: u32,
) -> Result<bool, NoMemory>
    requires readers { AreReaders nodes.now readers.now }
    requires marks { AreMarks nodes.now marks.old turn }
    requires root { slice_get marks.old root ≡ Some Mark.Out }
    requires behind { behind.old.items ≡ root ∷ [] }
    requires ahead { ahead.old.items ≡ root ∷ [] }
    ensures yes { IfOk result (λ found. found ≡ true → WayBack nodes.now (IsBlocked marks.new) root root) }
    ensures no { IfOk result (λ found. found ≡ false → WayBack nodes.now (IsBlocked marks.new) root root → ⊥) }
    ensures marks { OnOk result (AreMarks nodes.now marks.new (turn + 1)) }
    ensures back { OnOk result (IsPutBack marks.old marks.new root) }
{
    put_back(marks, root, turn);
    let mut at = 0;
    while at < behind.len() {
        if at >= ahead.len() {
            return Ok(false);
        }
        let met = go_on(nodes, marks, behind, at, Direction::Back, root, turn)?;
        if met {
            return Ok(true);
        }
        let met_ahead = go_on(readers, marks, ahead, at, Direction::Ahead, root, turn)?;
        if met_ahead {
            return Ok(true);
        }
        at += 1;
    }
    Ok(false)
}

fn put_back(marks: &mut [Mark], root: u32, turn: u32)
    requires { root < length marks.old }
    ensures { marks.new ≡ slice_set marks.old root (Mark.Met Direction.Back turn) }
{
    marks[root as usize] = Mark::Met(Direction::Back, turn);
}

fn list_of(alloc: Global, signal: u32) -> Result<Vec<u32>, NoMemory>
    ensures { IfOk result (λ made. made.items ≡ signal ∷ []) }
{
    let mut made = Vec::new(alloc);
    made.push(signal)?;
    Ok(made)
}

/// Goes on from the signal that was met at this place to what it reads. Tells whether that is the root, or was met by
/// the other walk.
fn go_on(
    nodes: &[Node],
    marks: &mut [Mark],
    met: &mut Vec<u32>,
    at: usize,
    way: Direction,
    root: u32,
    turn: u32,
) -> Result<bool, NoMemory>
    requires size { length marks.old ≡ length nodes.now }
    requires within { (s k : ℕ) (node : Node) (r : Signal) → slice_get nodes.now s ≡ Some node → slice_get node.reads k ≡ Some r → r.0 < length nodes.now }
    requires root { root < length nodes.now }
    requires at { at < length met.old.items }
    requires free { IsBlocked marks.old root → ⊥ }
    requires walk { IsWalk nodes.now marks.old root way turn met.old.items at }
    ensures yes { IfOk result (λ found. found ≡ true → HasMet nodes.now marks.new root way turn) }
    ensures no { IfOk result (λ found. found ≡ false → IsWalk nodes.now marks.new root way turn met.new.items (at + 1)) }
    ensures later { OnOk result (IsLater way turn marks.old marks.new) }
    ensures room { OnOk result (length met.new.items + unseen_count turn marks.new ≡ length met.old.items + unseen_count turn marks.old) }
{
    let signal = met[at];
    let node = &nodes[signal as usize];
    let reads = node.reads.as_slice();
    for k in 0..reads.len() {
        let found = meet(marks, met, reads[k].0, way, root, turn)?;
        if found {
            return Ok(true);
        }
    }
    Ok(false)
}

/// Meets a signal: it goes last, if no walk has met it in this turn. Tells whether it is the root, or was met by the
/// other walk.
fn meet(
    marks: &mut [Mark],
    met: &mut Vec<u32>,
    signal: u32,
    way: Direction,
    root: u32,
    turn: u32,
) -> Result<bool, NoMemory>
    requires { signal < length marks.old }
    ensures { IfOk result (Meets marks.old marks.new met.old.items met.new.items signal way root turn) }
{
    if signal == root {
        return Ok(true);
    }
    match marks[signal as usize] {
        Mark::Out => Ok(false),
        Mark::Met(other, last) => {
            if last == turn {
                return Ok(!way.is(other));
            }
            met.push(signal)?;
            marks[signal as usize] = Mark::Met(way, turn);
            Ok(false)
        }
    }
}
