//! All cases.

ghost use Rattle.std.specs.Prelude.{IfOk, IsTrue};
ghost use Rattle.sweep_candidates.specs.case_split.Under.{AgreeIn, IsSplitOf};

use crate::case_split::case::{Case, put_case};
use crate::case_split::marks::{count_of, most_read, reached};
use aig::{Aig, Lit, NoMemory};
use std::alloc::Global;

/// The most cases.
const CASES: usize = 1 << 12;

/// How many nodes a cone has whose cases may be as large as itself.
const SMALL: usize = 16;

/// Tells, where it can by few cases, that two literals agree under every assignment. Both are cofactored by the variable that most nodes
/// of their cones read, and so are the cofactors, until the literals of each case are one. It gives up where the cones of a case have
/// more than three quarters of the nodes that they had before, or all cases together more than 16 times as many.
pub fn agree_by_cases(alloc: Global, graph: &Aig, left: Lit, right: Lit) -> Result<bool, NoMemory>
    ensures { IfOk result (λ same. IsTrue same → AgreeIn graph.now left.0 right.0) }
{
    let mut waiting = Vec::new(alloc);
    let mut room = usize::MAX;
    let first = split(
        alloc,
        graph,
        (left, right),
        usize::MAX,
        &mut room,
        &mut waiting,
    )?;
    if !first {
        return Ok(false);
    }
    for _turn in 0..CASES {
        let Some(case) = waiting.pop() else {
            return Ok(true);
        };
        let told = split_case(alloc, &case, &mut room, &mut waiting)?;
        if !told {
            return Ok(false);
        }
    }
    Ok(false)
}

/// Splits the case.
fn split_case(
    alloc: Global,
    case: &Case,
    room: &mut usize,
    waiting: &mut Vec<Case>,
) -> Result<bool, NoMemory>
    ensures { IfOk result (λ told. IsTrue told → IsSplitOf case.now.graph case.now.left.0 case.now.right.0 waiting.old.items waiting.new.items) }
{
    split(
        alloc,
        &case.graph,
        (case.left, case.right),
        case.before,
        room,
        waiting,
    )
}

/// Whether the literals are one, or else are split into two cases, which are put behind the rest. The room for nodes of cones gets less;
/// the first time it is set.
fn split(
    alloc: Global,
    graph: &Aig,
    lits: (Lit, Lit),
    before: usize,
    room: &mut usize,
    waiting: &mut Vec<Case>,
) -> Result<bool, NoMemory>
    ensures { IfOk result (λ told. IsTrue told → IsSplitOf graph.now lits.0.0 lits.1.0 waiting.old.items waiting.new.items) }
{
    if lits.0 == lits.1 {
        return Ok(true);
    }
    let marks = reached(alloc, graph.nodes(), lits.0, lits.1)?;
    let size = count_of(marks.as_slice());
    if !is_worth(size, before, room) {
        return Ok(false);
    }
    let Some(var) = most_read(alloc, graph.nodes(), marks.as_slice(), size / 32)? else {
        return Ok(false);
    };
    let marks = marks.as_slice();
    let low = put_case(alloc, graph, marks, lits, size, var, false, waiting)?;
    if !low {
        return Ok(false);
    }
    put_case(alloc, graph, marks, lits, size, var, true, waiting)
}

/// Whether cones of so many nodes are to be split, which had so many before. It takes them from the room.
fn is_worth(size: usize, before: usize, room: &mut usize) -> bool {
    if *room == usize::MAX {
        *room = size.saturating_mul(16);
    }
    if size > *room || size > SMALL && size > before / 4 * 3 {
        return false;
    }
    *room = room.saturating_sub(size);
    true
}
