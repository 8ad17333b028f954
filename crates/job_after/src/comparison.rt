//! Two files searched for a difference behind the rows of a third.

ghost use Rattle.std.specs.Prelude.{◌≡◌, ◌≤◌, ℕ, List, IsErrOf};
ghost use Rattle.base_shelves.specs.Outside.{SameHeld, NoneFell};
ghost use Rattle.job_after.specs.Answer.{AfterJob};
ghost use Rattle.job_after.specs.Ends.{AfterFound};

use crate::judging::{after_end, judge_after};
use crate::reading::{AfterPaths, ReadFiles, read_files};
use base_shelves::Shelf;
use job_base::{Finding, Stop};
use sec_base::MAX_CONFLICTS;
use std::alloc::Global;

/// The paths of two circuits and of a stimulus, behind whose rows the circuits are searched for a difference.
#[derive(Clone, Copy)]
pub struct AfterComparison<'a> {
    pub left: &'a str,
    pub right: &'a str,
    pub stimulus: &'a str,
    /// The last cycle behind the rows that is to be compared; the first one is 0. None: all are.
    pub cycles: Option<u32>,
    /// The greatest number of conflicts of each query, 0 to 200,000.
    pub conflicts: u32,
}

/// Loads both circuits, A first, and then the stimulus, and compares the circuits behind its rows.
pub fn compare_after<S: Shelf>(
    alloc: Global,
    comparison: &AfterComparison<'_>,
    shelf: &mut S,
) -> Result<Finding, Stop>
    requires { comparison.now.conflicts ≤ MAX_CONFLICTS }
    ensures found { let job : AfterJob = record { left = comparison.now.left.now; right = comparison.now.right.now; stimulus = comparison.now.stimulus.now; cycles = comparison.now.cycles; conflicts = comparison.now.conflicts } in
        AfterFound (S.held shelf.old) (S.faults shelf.old) (S.faults shelf.new) job result }
    ensures keeps { SameHeld (S.held shelf.old) (S.held shelf.new) }
    ensures later { NoneFell (S.faults shelf.old) (S.faults shelf.new) }
    ensures served { S.serves shelf.old comparison.now.left.now → S.serves shelf.old comparison.now.right.now → S.serves shelf.old comparison.now.stimulus.now → IsErrOf result Stop.ReadFault → ⊥ }
    ensures serving { (other : List ℕ) → S.serves shelf.old other → S.serves shelf.new other }
{
    let paths = AfterPaths {
        left: comparison.left,
        right: comparison.right,
        stimulus: comparison.stimulus,
    };
    match read_files(alloc, &paths, shelf) {
        ReadFiles::Whole(a, b, stimulus) => {
            let (cycles, conflicts) = (comparison.cycles, comparison.conflicts);
            let judged = judge_after(alloc, a, b, &stimulus, cycles, conflicts);
            after_end(judged)
        }
        ReadFiles::Ended(end) => end,
    }
}
