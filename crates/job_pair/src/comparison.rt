//! Two files compared by the outputs of one name.

ghost use Rattle.std.specs.Prelude.{◌≡◌, ◌≤◌, ◌∷◌, [], ℕ, List, true, false, IsErrOf};
ghost use Rattle.circuit_theory.specs.declared.Mode.TheVariants.{Plain};
ghost use Rattle.base_shelves.specs.Outside.{Rose, SameHeld, NoneFell};
ghost use Rattle.flat_net.specs.Comparable.{IsComparable};
ghost use Rattle.job_pair.specs.Ends.{PairFound, EndsBeside, PairEnds, IsMissing};

use base_shelves::Shelf;
use flat_net::Net;
use job_base::sec_files::job_files::load_end;
use job_base::sec_files::load;
use job_base::{File, Finding, Refusal, Stop};
use job_check::compare_end;
use job_check::sec_check::{Settings, compare};
use net_names::{only_output, shows_output};
use sec_base::{MAX_CONFLICTS, Seq};
use std::alloc::Global;

/// The paths of two files whose outputs of one name are to be compared, and how.
#[derive(Clone, Copy)]
pub struct PairComparison<'a> {
    pub left: &'a str,
    pub right: &'a str,
    pub pair: &'a [u8],
    pub settings: Settings,
}

/// Compares the outputs of one name: loads both circuits, A first, and compares both with their outputs of this name alone. Where one of them has none
/// of this name, it is refused.
pub fn compare_pair<S: Shelf>(
    alloc: Global,
    comparison: &PairComparison<'_>,
    shelf: &mut S,
) -> Result<Finding, Stop>
    requires plain { comparison.now.settings.reset ≡ true → comparison.now.settings.mode ≡ Plain }
    requires uncut { comparison.now.settings.reset ≡ true → comparison.now.settings.expose ≡ false }
    requires conflicts { comparison.now.settings.conflicts ≤ MAX_CONFLICTS }
    ensures found { PairFound (S.held shelf.old) (S.faults shelf.old) (S.faults shelf.new) comparison.now.pair.now comparison.now.settings comparison.now.left.now comparison.now.right.now result }
    ensures keeps { SameHeld (S.held shelf.old) (S.held shelf.new) }
    ensures later { NoneFell (S.faults shelf.old) (S.faults shelf.new) }
    ensures served { S.serves shelf.old comparison.now.left.now → S.serves shelf.old comparison.now.right.now → IsErrOf result Stop.ReadFault → ⊥ }
    ensures serving { (other : List ℕ) → S.serves shelf.old other → S.serves shelf.new other }
{
    match load(alloc, shelf, comparison.left) {
        Ok(a) => compare_with(alloc, &a, comparison, shelf),
        Err(error) => load_end(File::A, error),
    }
}

/// Loads B and compares A's outputs with its.
fn compare_with<S: Shelf>(
    alloc: Global,
    a: &Net,
    comparison: &PairComparison<'_>,
    shelf: &mut S,
) -> Result<Finding, Stop>
    requires plain { comparison.now.settings.reset ≡ true → comparison.now.settings.mode ≡ Plain }
    requires uncut { comparison.now.settings.reset ≡ true → comparison.now.settings.expose ≡ false }
    requires conflicts { comparison.now.settings.conflicts ≤ MAX_CONFLICTS }
    requires left { IsComparable a.now }
    ensures found { let path = comparison.now.right.now in
        EndsBeside (S.held shelf.old path) (Rose (S.faults shelf.old path) (S.faults shelf.new path)) a.now comparison.now.pair.now comparison.now.settings result }
    ensures keeps { SameHeld (S.held shelf.old) (S.held shelf.new) }
    ensures later { NoneFell (S.faults shelf.old) (S.faults shelf.new) }
    ensures served { S.serves shelf.old comparison.now.right.now → IsErrOf result Stop.ReadFault → ⊥ }
    ensures serving { (other : List ℕ) → S.serves shelf.old other → S.serves shelf.new other }
{
    match load(alloc, shelf, comparison.right) {
        Ok(b) => compare_nets(alloc, a, &b, comparison),
        Err(error) => load_end(File::B, error),
    }
}

/// Compares both nets with their outputs of the name alone.
fn compare_nets(
    alloc: Global,
    a: &Net,
    b: &Net,
    comparison: &PairComparison<'_>,
) -> Result<Finding, Stop>
    requires plain { comparison.now.settings.reset ≡ true → comparison.now.settings.mode ≡ Plain }
    requires uncut { comparison.now.settings.reset ≡ true → comparison.now.settings.expose ≡ false }
    requires conflicts { comparison.now.settings.conflicts ≤ MAX_CONFLICTS }
    requires left { IsComparable a.now }
    requires right { IsComparable b.now }
    ensures { PairEnds comparison.now.pair.now comparison.now.settings a.now b.now result }
{
    if !shows_output(a, comparison.pair) || !shows_output(b, comparison.pair) {
        return missing(alloc, comparison.pair);
    }
    let Ok(left) = only_output(alloc, a, comparison.pair) else {
        return Err(Stop::NoMemory);
    };
    let Ok(right) = only_output(alloc, b, comparison.pair) else {
        return Err(Stop::NoMemory);
    };
    let compared = compare(alloc, &left, &right, &comparison.settings);
    compare_end(comparison.settings, compared)
}

/// What is found where not both circuits have an output of this name.
fn missing(alloc: Global, pair: &[u8]) -> Result<Finding, Stop>
    ensures { IsMissing pair.now result }
{
    let Ok(name) = pair.to_vec(alloc) else {
        return Err(Stop::NoMemory);
    };
    Ok(Finding::Refused(Refusal::Pair(Seq::from_vec(name))))
}
