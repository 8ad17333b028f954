//! Two files compared by ties of signals behind the rows of a third, under the assumption of a fourth.

ghost use Rattle.std.specs.Prelude.{◌≡◌, ◌≤◌, ℕ, List, IsErrOf};
ghost use Rattle.base_shelves.specs.Outside.{SameHeld, NoneFell};
ghost use Rattle.job_after_under.specs.ties.Ends.{TiesBehindJob, TiesBehindFound};

use crate::judging::fault_end;
use crate::reading::{AfterUnderPaths, ReadFour, read_four};
use crate::ties::judging::judge_behind;
use base_shelves::Shelf;
use job_base::{Finding, Stop};
use sec_base::MAX_CONFLICTS;
use std::alloc::Global;

/// The paths of two circuits, of the assumption on their inputs, and of a stimulus, behind whose rows the circuits are compared by ties of
/// signals.
#[derive(Clone, Copy)]
pub struct TiesBehindComparison<'a> {
    pub left: &'a str,
    pub right: &'a str,
    pub assumed: &'a str,
    pub stimulus: &'a str,
    /// The number of conflicts of each query, 0 to 200,000, at which its tie is dropped.
    pub conflicts: u32,
}

/// Loads both circuits, A first, then the assumption and then the stimulus, and compares the circuits behind its rows, in the runs whose inputs
/// make the assumption's output 1 in each cycle there.
pub fn compare_ties_behind<S: Shelf>(
    alloc: Global,
    comparison: &TiesBehindComparison<'_>,
    shelf: &mut S,
) -> Result<Finding, Stop>
    requires { comparison.now.conflicts ≤ MAX_CONFLICTS }
    ensures found { let job : TiesBehindJob = record { left = comparison.now.left.now; right = comparison.now.right.now; assumed = comparison.now.assumed.now; stimulus = comparison.now.stimulus.now; conflicts = comparison.now.conflicts } in
        TiesBehindFound (S.held shelf.old) (S.faults shelf.old) (S.faults shelf.new) job result }
    ensures keeps { SameHeld (S.held shelf.old) (S.held shelf.new) }
    ensures later { NoneFell (S.faults shelf.old) (S.faults shelf.new) }
    ensures served { S.serves shelf.old comparison.now.left.now → S.serves shelf.old comparison.now.right.now → S.serves shelf.old comparison.now.assumed.now → S.serves shelf.old comparison.now.stimulus.now → IsErrOf result Stop.ReadFault → ⊥ }
    ensures serving { (other : List ℕ) → S.serves shelf.old other → S.serves shelf.new other }
{
    let paths = AfterUnderPaths {
        left: comparison.left,
        right: comparison.right,
        assumed: comparison.assumed,
        stimulus: comparison.stimulus,
    };
    match read_four(alloc, &paths, shelf) {
        ReadFour::Whole(a, b, c, stimulus) => {
            let judged = judge_behind(alloc, a, b, &c, &stimulus, comparison.conflicts);
            fault_end(judged)
        }
        ReadFour::Ended(end) => end,
    }
}
