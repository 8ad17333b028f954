//! Two files compared by ties of signals under the assumption of a third.

ghost use Rattle.std.specs.Prelude.{◌≡◌, ◌≤◌, ℕ, List, IsErrOf};
ghost use Rattle.base_shelves.specs.Outside.{SameHeld, NoneFell};
ghost use Rattle.job_under.specs.ties.Ends.{TiesFound};

use crate::judging::under_end;
use crate::reading::{ReadThree, UnderPaths, read_three};
use crate::ties::judging::judge_ties;
use base_shelves::Shelf;
use job_base::{Finding, Stop};
use sec_base::MAX_CONFLICTS;
use std::alloc::Global;

/// The paths of two circuits that are compared by ties of signals, and of the assumption on their inputs.
#[derive(Clone, Copy)]
pub struct TiesComparison<'a> {
    pub left: &'a str,
    pub right: &'a str,
    pub assumed: &'a str,
    /// The number of conflicts of each query, 0 to 200,000, at which its tie is dropped.
    pub conflicts: u32,
}

/// Loads both circuits, A first, and then the assumption, and compares the circuits from their initial values in the runs whose inputs make
/// the assumption's output 1 in each cycle.
pub fn compare_ties<S: Shelf>(
    alloc: Global,
    comparison: &TiesComparison<'_>,
    shelf: &mut S,
) -> Result<Finding, Stop>
    requires { comparison.now.conflicts ≤ MAX_CONFLICTS }
    ensures found { TiesFound (S.held shelf.old) (S.faults shelf.old) (S.faults shelf.new) comparison.now.left.now comparison.now.right.now comparison.now.assumed.now comparison.now.conflicts result }
    ensures keeps { SameHeld (S.held shelf.old) (S.held shelf.new) }
    ensures later { NoneFell (S.faults shelf.old) (S.faults shelf.new) }
    ensures served { S.serves shelf.old comparison.now.left.now → S.serves shelf.old comparison.now.right.now → S.serves shelf.old comparison.now.assumed.now → IsErrOf result Stop.ReadFault → ⊥ }
    ensures serving { (other : List ℕ) → S.serves shelf.old other → S.serves shelf.new other }
{
    let paths = UnderPaths {
        left: comparison.left,
        right: comparison.right,
        assumed: comparison.assumed,
    };
    match read_three(alloc, &paths, shelf) {
        ReadThree::Whole(a, b, c) => {
            let judged = judge_ties(alloc, &a, &b, &c, comparison.conflicts);
            under_end(judged)
        }
        ReadThree::Ended(end) => end,
    }
}
