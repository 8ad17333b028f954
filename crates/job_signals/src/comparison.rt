//! Two files compared by ties of signals.

ghost use Rattle.std.specs.Prelude.{◌≡◌, ◌∷◌, [], ℕ, List, IsErrOf};
ghost use Rattle.base_shelves.specs.Outside.{Rose, SameHeld, NoneFell};
ghost use Rattle.flat_net.specs.Comparable.{IsComparable};
ghost use Rattle.job_signals.specs.Ends.{SignalsFound, EndsBeside};

use crate::judging::{judge_nets, judged_end};
use base_shelves::Shelf;
use flat_net::Net;
use job_base::sec_files::job_files::load_end;
use job_base::sec_files::load;
use job_base::{File, Finding, Stop};
use std::alloc::Global;

/// The paths of two circuits that are compared by ties of signals.
#[derive(Clone, Copy)]
pub struct SignalComparison<'a> {
    pub left: &'a str,
    pub right: &'a str,
    /// The number of conflicts of each query, at which its tie is dropped.
    pub conflicts: u32,
}

/// Loads both circuits, A first, and compares them from their initial values.
pub fn compare_by_signals<S: Shelf>(
    alloc: Global,
    comparison: &SignalComparison<'_>,
    shelf: &mut S,
) -> Result<Finding, Stop>
    ensures found { SignalsFound (S.held shelf.old) (S.faults shelf.old) (S.faults shelf.new) comparison.now.left.now comparison.now.right.now result }
    ensures keeps { SameHeld (S.held shelf.old) (S.held shelf.new) }
    ensures later { NoneFell (S.faults shelf.old) (S.faults shelf.new) }
    ensures served { S.serves shelf.old comparison.now.left.now → S.serves shelf.old comparison.now.right.now → IsErrOf result Stop.ReadFault → ⊥ }
    ensures serving { (other : List ℕ) → S.serves shelf.old other → S.serves shelf.new other }
{
    match load(alloc, shelf, comparison.left) {
        Ok(a) => compare_with(alloc, &a, comparison, shelf),
        Err(error) => load_end(File::A, error),
    }
}

/// Loads B and compares A with it.
fn compare_with<S: Shelf>(
    alloc: Global,
    a: &Net,
    comparison: &SignalComparison<'_>,
    shelf: &mut S,
) -> Result<Finding, Stop>
    requires left { IsComparable a.now }
    ensures found { let path = comparison.now.right.now in
        EndsBeside (S.held shelf.old path) (Rose (S.faults shelf.old path) (S.faults shelf.new path)) a.now result }
    ensures keeps { SameHeld (S.held shelf.old) (S.held shelf.new) }
    ensures later { NoneFell (S.faults shelf.old) (S.faults shelf.new) }
    ensures served { S.serves shelf.old comparison.now.right.now → IsErrOf result Stop.ReadFault → ⊥ }
    ensures serving { (other : List ℕ) → S.serves shelf.old other → S.serves shelf.new other }
{
    match load(alloc, shelf, comparison.right) {
        Ok(b) => {
            let judged = judge_nets(alloc, a, &b, comparison.conflicts);
            judged_end(alloc, judged)
        }
        Err(error) => load_end(File::B, error),
    }
}
