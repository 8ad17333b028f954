//! Two files searched for a difference under the assumption of a third.

ghost use Rattle.std.specs.Prelude.{◌≡◌, ◌≤◌, ℕ, List, IsErrOf};
ghost use Rattle.base_shelves.specs.Outside.{SameHeld, NoneFell};
ghost use Rattle.job_under.specs.Ends.{UnderJob, UnderFound};

use crate::judging::{judge_under, under_end};
use crate::reading::{ReadThree, UnderPaths, read_three};
use base_shelves::Shelf;
use job_base::{Finding, Stop};
use sec_base::MAX_CONFLICTS;
use std::alloc::Global;

/// The paths of two circuits that are searched for a difference, and of the assumption on their inputs.
#[derive(Clone, Copy)]
pub struct UnderComparison<'a> {
    pub left: &'a str,
    pub right: &'a str,
    pub assumed: &'a str,
    /// The last cycle that is to be compared, at most 1,000.
    pub cycles: u32,
    /// The greatest number of conflicts of each query, 0 to 200,000.
    pub conflicts: u32,
}

/// Loads both circuits, A first, and then the assumption, and compares the circuits from their initial values in the runs whose inputs make
/// the assumption's output 1 in each cycle.
pub fn compare_under<S: Shelf>(
    alloc: Global,
    comparison: &UnderComparison<'_>,
    shelf: &mut S,
) -> Result<Finding, Stop>
    requires conflicts { comparison.now.conflicts ≤ MAX_CONFLICTS }
    requires cycles { comparison.now.cycles ≤ 1000 }
    ensures found { let job : UnderJob = record { left = comparison.now.left.now; right = comparison.now.right.now; assumed = comparison.now.assumed.now; cycles = comparison.now.cycles; conflicts = comparison.now.conflicts } in
        UnderFound (S.held shelf.old) (S.faults shelf.old) (S.faults shelf.new) job result }
    ensures keeps { SameHeld (S.held shelf.old) (S.held shelf.new) }
    ensures later { NoneFell (S.faults shelf.old) (S.faults shelf.new) }
    ensures served { S.serves shelf.old comparison.now.left.now → S.serves shelf.old comparison.now.right.now → S.serves shelf.old comparison.now.assumed.now → IsErrOf result Stop.ReadFault → ⊥ }
    ensures serving { (other : List ℕ) → S.serves shelf.old other → S.serves shelf.new other }
{
    let paths = UnderPaths {
        left: comparison.left,
        right: comparison.right,
        assumed: comparison.assumed,
    };
    match read_three(alloc, &paths, shelf) {
        ReadThree::Whole(a, b, c) => {
            let (cycles, conflicts) = (comparison.cycles, comparison.conflicts);
            let judged = judge_under(alloc, &a, &b, &c, cycles, conflicts);
            under_end(judged)
        }
        ReadThree::Ended(end) => end,
    }
}
