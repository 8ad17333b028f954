//! Two files compared by an induction over cycles behind the rows of a third.

ghost use Rattle.std.specs.Prelude.{◌≡◌, ◌≤◌, ℕ, List, IsErrOf};
ghost use Rattle.base_shelves.specs.Outside.{SameHeld, NoneFell};
ghost use Rattle.job_signals.specs.job_begun.Ends.{BegunJob, BegunFound};

use crate::job_begun::judging::judge_behind;
use base_shelves::Shelf;
use job_after::{AfterPaths, ReadFiles, after_end, read_files};
use job_base::{Finding, Stop};
use sec_base::MAX_CONFLICTS;
use std::alloc::Global;

/// The paths of two circuits and of a stimulus, behind whose rows the circuits are compared.
#[derive(Clone, Copy)]
pub struct BegunComparison<'a> {
    pub left: &'a str,
    pub right: &'a str,
    pub stimulus: &'a str,
    /// Whether they are compared by ties of their signals, and not by blocks of their latches.
    pub signals: bool,
    /// The greatest number of conflicts of each query, 0 to 200,000: there a tie is dropped, and a block left undecided.
    pub conflicts: u32,
}

/// Loads both circuits, A first, and then the stimulus, and compares the circuits behind its rows.
pub fn compare_begun<S: Shelf>(
    alloc: Global,
    comparison: &BegunComparison<'_>,
    shelf: &mut S,
) -> Result<Finding, Stop>
    requires { comparison.now.conflicts ≤ MAX_CONFLICTS }
    ensures found { let job : BegunJob = record { left = comparison.now.left.now; right = comparison.now.right.now; stimulus = comparison.now.stimulus.now; signals = comparison.now.signals; conflicts = comparison.now.conflicts } in
        BegunFound (S.held shelf.old) (S.faults shelf.old) (S.faults shelf.new) job result }
    ensures keeps { SameHeld (S.held shelf.old) (S.held shelf.new) }
    ensures later { NoneFell (S.faults shelf.old) (S.faults shelf.new) }
    ensures served { S.serves shelf.old comparison.now.left.now → S.serves shelf.old comparison.now.right.now → S.serves shelf.old comparison.now.stimulus.now → IsErrOf result Stop.ReadFault → ⊥ }
    ensures serving { (other : List ℕ) → S.serves shelf.old other → S.serves shelf.new other }
{
    let paths = AfterPaths {
        left: comparison.left,
        right: comparison.right,
        stimulus: comparison.stimulus,
    };
    match read_files(alloc, &paths, shelf) {
        ReadFiles::Whole(a, b, stimulus) => {
            let (signals, conflicts) = (comparison.signals, comparison.conflicts);
            let judged = judge_behind(alloc, a, b, &stimulus, signals, conflicts);
            after_end(judged)
        }
        ReadFiles::Ended(end) => end,
    }
}
