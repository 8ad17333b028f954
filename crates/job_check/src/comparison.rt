//! The job that compares two circuits, also under an assumption on their inputs.

ghost use Rattle.std.specs.Prelude.{◌≡◌, ◌≤◌, ℕ, List, true, false, option_map, Some, IsErrOf};
ghost use Rattle.std.specs.List.{All};
ghost use Rattle.circuit_theory.specs.declared.Mode.TheVariants.{Plain};
ghost use Rattle.base_shelves.specs.Outside.{SameHeld, NoneFell};
ghost use Rattle.flat_net.specs.Comparable.{IsComparable};
ghost use Rattle.job_check.specs.check_meaning.check_found.Check.{Check, all_paths, assumed_paths};
ghost use Rattle.job_check.specs.check_meaning.check_found.Ends.{compare_end, EndsBeside, EndsBoth, FoundOf};

use crate::check_meaning::check_found::{File, Finding, Refusal, Stop, load, load_end};
use crate::sec_check::{CompareError, Outcome, Settings, compare, compare_under};
use base_shelves::Shelf;
use flat_net::Net;
use sec_base::MAX_CONFLICTS;
use std::alloc::Global;

/// The paths of two files that are to be compared, how, and that of the assumption where there is one.
#[derive(Clone, Copy)]
pub struct Comparison<'a> {
    pub left: &'a str,
    pub right: &'a str,
    pub settings: Settings,
    pub assumed: Option<&'a str>,
}

/// Compares the circuits of two files in the mode that is asked for: loads both, A first, and then the assumption where there is one. Under an
/// assumption only the runs count whose inputs make its output 1 in each cycle. From initial values the mode is plain, and no latch is cut open.
pub fn check<S: Shelf>(
    alloc: Global,
    comparison: &Comparison<'_>,
    shelf: &mut S,
) -> Result<Finding, Stop>
    requires plain { comparison.now.settings.reset ≡ true → comparison.now.settings.mode ≡ Plain }
    requires uncut { comparison.now.settings.reset ≡ true → comparison.now.settings.expose ≡ false }
    requires conflicts { comparison.now.settings.conflicts ≤ MAX_CONFLICTS }
    ensures found { let check : Check = record { left = comparison.now.left.now; right = comparison.now.right.now; settings = comparison.now.settings; assumed = option_map (λ path. path.now) comparison.now.assumed } in
        FoundOf (S.held shelf.old) (S.faults shelf.old) (S.faults shelf.new) check result }
    ensures keeps { SameHeld (S.held shelf.old) (S.held shelf.new) }
    ensures later { NoneFell (S.faults shelf.old) (S.faults shelf.new) }
    ensures served { All (S.serves shelf.old) (all_paths comparison.now.left.now comparison.now.right.now (option_map (λ path. path.now) comparison.now.assumed)) → IsErrOf result Stop.ReadFault → ⊥ }
    ensures serving { (other : List ℕ) → S.serves shelf.old other → S.serves shelf.new other }
{
    match load(alloc, shelf, comparison.left) {
        Ok(a) => compare_with(alloc, &a, comparison, shelf),
        Err(error) => load_end(File::A, error),
    }
}

/// Loads B, and then the assumption where there is one, and compares A with B.
fn compare_with<S: Shelf>(
    alloc: Global,
    a: &Net,
    comparison: &Comparison<'_>,
    shelf: &mut S,
) -> Result<Finding, Stop>
    requires plain { comparison.now.settings.reset ≡ true → comparison.now.settings.mode ≡ Plain }
    requires uncut { comparison.now.settings.reset ≡ true → comparison.now.settings.expose ≡ false }
    requires conflicts { comparison.now.settings.conflicts ≤ MAX_CONFLICTS }
    requires left { IsComparable a.now }
    ensures found { EndsBeside (S.held shelf.old) (S.faults shelf.old) (S.faults shelf.new) a.now comparison.now.right.now comparison.now.settings (option_map (λ path. path.now) comparison.now.assumed) result }
    ensures keeps { SameHeld (S.held shelf.old) (S.held shelf.new) }
    ensures later { NoneFell (S.faults shelf.old) (S.faults shelf.new) }
    ensures served { S.serves shelf.old comparison.now.right.now → All (S.serves shelf.old) (assumed_paths (option_map (λ path. path.now) comparison.now.assumed)) → IsErrOf result Stop.ReadFault → ⊥ }
    ensures serving { (other : List ℕ) → S.serves shelf.old other → S.serves shelf.new other }
{
    match load(alloc, shelf, comparison.right) {
        Ok(b) => match comparison.assumed {
            Some(path) => compare_assuming(alloc, a, &b, path, &comparison.settings, shelf),
            None => {
                let compared = compare(alloc, a, &b, &comparison.settings);
                compare_end(comparison.settings, compared)
            }
        },
        Err(error) => load_end(File::B, error),
    }
}

/// Loads the assumption, and compares A with B under it.
fn compare_assuming<S: Shelf>(
    alloc: Global,
    a: &Net,
    b: &Net,
    path: &str,
    settings: &Settings,
    shelf: &mut S,
) -> Result<Finding, Stop>
    requires plain { settings.now.reset ≡ true → settings.now.mode ≡ Plain }
    requires uncut { settings.now.reset ≡ true → settings.now.expose ≡ false }
    requires conflicts { settings.now.conflicts ≤ MAX_CONFLICTS }
    requires left { IsComparable a.now }
    requires right { IsComparable b.now }
    ensures found { EndsBoth (S.held shelf.old) (S.faults shelf.old) (S.faults shelf.new) a.now b.now settings.now (Some path.now) result }
    ensures keeps { SameHeld (S.held shelf.old) (S.held shelf.new) }
    ensures later { NoneFell (S.faults shelf.old) (S.faults shelf.new) }
    ensures served { S.serves shelf.old path.now → IsErrOf result Stop.ReadFault → ⊥ }
    ensures serving { (other : List ℕ) → S.serves shelf.old other → S.serves shelf.new other }
{
    match load(alloc, shelf, path) {
        Ok(c) => {
            let compared = compare_under(alloc, a, b, &c, settings);
            compare_end(*settings, compared)
        }
        Err(error) => load_end(File::C, error),
    }
}

/// What is found by a comparison.
pub fn compare_end(
    settings: Settings,
    compared: Result<Outcome, CompareError>,
) -> Result<Finding, Stop>
    ensures { result ≡ compare_end settings compared }
{
    match compared {
        Ok(outcome) => Ok(Finding::Checked(outcome, settings)),
        Err(CompareError::Interface(name)) => Ok(Finding::Refused(Refusal::Interface(name))),
        Err(CompareError::Cyclic(side, names)) => Ok(Finding::Cyclic(side, names)),
        Err(CompareError::Unpaired(side, names)) => Ok(Finding::Unpaired(side, names)),
        Err(CompareError::TooLarge(side)) => Ok(Finding::Refused(Refusal::TooLarge(side))),
        Err(CompareError::TooManyEvents) => Ok(Finding::Refused(Refusal::TooManyEvents)),
        Err(CompareError::Assume(fault)) => Ok(Finding::Refused(Refusal::Assume(fault))),
        Err(CompareError::Vacuous(_)) => Ok(Finding::Refused(Refusal::Vacuous)),
        Err(CompareError::NoMemory) => Err(Stop::NoMemory),
    }
}
