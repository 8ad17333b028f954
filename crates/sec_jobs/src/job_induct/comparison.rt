//! Two files compared by blocks of latches.

ghost use Rattle.std.specs.Prelude.{◌≡◌, ◌≤◌, ◌∷◌, [], ℕ, List, IsErrOf};
ghost use Rattle.base_shelves.specs.Outside.{Rose, SameHeld, NoneFell};
ghost use Rattle.flat_net.specs.Comparable.{IsComparable};
ghost use Rattle.sec_jobs.specs.job_induct.Ends.{InductFound, EndsBeside};

use crate::job_induct::judging::{judge_nets, judged_end};
use base_shelves::Shelf;
use flat_net::Net;
use job_base::sec_files::job_files::load_end;
use job_base::sec_files::load;
use job_base::{File, Finding, Stop};
use sec_base::MAX_CONFLICTS;
use std::alloc::Global;

/// The paths of two circuits that are compared by blocks of latches.
#[derive(Clone, Copy)]
pub struct BlockComparison<'a> {
    pub left: &'a str,
    pub right: &'a str,
    /// The greatest number of conflicts of each query, 0 to 200,000.
    pub conflicts: u32,
}

/// Loads both circuits, A first, and compares them from their initial values.
pub fn compare_by_blocks<S: Shelf>(
    alloc: Global,
    comparison: &BlockComparison<'_>,
    shelf: &mut S,
) -> Result<Finding, Stop>
    requires { comparison.now.conflicts ≤ MAX_CONFLICTS }
    ensures found { InductFound (S.held shelf.old) (S.faults shelf.old) (S.faults shelf.new) comparison.now.conflicts comparison.now.left.now comparison.now.right.now result }
    ensures keeps { SameHeld (S.held shelf.old) (S.held shelf.new) }
    ensures later { NoneFell (S.faults shelf.old) (S.faults shelf.new) }
    ensures served { S.serves shelf.old comparison.now.left.now → S.serves shelf.old comparison.now.right.now → IsErrOf result Stop.ReadFault → ⊥ }
    ensures serving { (other : List ℕ) → S.serves shelf.old other → S.serves shelf.new other }
{
    match load(alloc, shelf, comparison.left) {
        Ok(a) => compare_with(alloc, &a, comparison, shelf),
        Err(error) => load_end(File::A, error),
    }
}

/// Loads B and compares A with it.
fn compare_with<S: Shelf>(
    alloc: Global,
    a: &Net,
    comparison: &BlockComparison<'_>,
    shelf: &mut S,
) -> Result<Finding, Stop>
    requires conflicts { comparison.now.conflicts ≤ MAX_CONFLICTS }
    requires left { IsComparable a.now }
    ensures found { let path = comparison.now.right.now in
        EndsBeside (S.held shelf.old path) (Rose (S.faults shelf.old path) (S.faults shelf.new path)) a.now comparison.now.conflicts result }
    ensures keeps { SameHeld (S.held shelf.old) (S.held shelf.new) }
    ensures later { NoneFell (S.faults shelf.old) (S.faults shelf.new) }
    ensures served { S.serves shelf.old comparison.now.right.now → IsErrOf result Stop.ReadFault → ⊥ }
    ensures serving { (other : List ℕ) → S.serves shelf.old other → S.serves shelf.new other }
{
    match load(alloc, shelf, comparison.right) {
        Ok(b) => {
            let judged = judge_nets(alloc, a, &b, comparison.conflicts);
            judged_end(judged)
        }
        Err(error) => load_end(File::B, error),
    }
}
