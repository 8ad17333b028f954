//! The job that compares two circuits with the cares of their pairs, also under an assumption on their inputs.

ghost use Rattle.std.specs.Prelude.{◌≡◌, ◌≤◌, ℕ, List, false, option_map, Some, IsErrOf};
ghost use Rattle.std.specs.List.{All};
ghost use Rattle.base_shelves.specs.Outside.{SameHeld, NoneFell};
ghost use Rattle.flat_net.specs.Comparable.{IsComparable};
ghost use Rattle.job_check.specs.check_meaning.check_found.Check.{Check, all_paths, assumed_paths};
ghost use Rattle.job_settles.specs.Found.{CanTell, IsSettledEnd, SettlesFound, SettlesBeside, SettlesBoth};
ghost use Rattle.job_settles.specs.Settled.{SettledIn, SettledUnderIn};

use crate::comparison::{settle, settle_under};
use crate::report::found_of;
use base_shelves::Shelf;
use event_check::event_answers::Settled;
use flat_net::Net;
use job_check::check_meaning::check_found::{File, Finding, Stop, load, load_end};
use job_check::sec_check::CompareError;
use job_check::{Comparison, compare_end};
use obligations::outcome::Settings;
use sec_base::MAX_CONFLICTS;
use std::alloc::Global;

/// Compares the circuits of two files as `job_check::check` does, not from initial values, and finds out of each pair whether both its sides have care
/// together in some frame. A pair without care is told, and where all pairs are equal it isn't shown that the circuits agree.
pub fn check_settles<S: Shelf>(
    alloc: Global,
    comparison: &Comparison<'_>,
    shelf: &mut S,
) -> Result<Finding, Stop>
    requires always { comparison.now.settings.reset ≡ false }
    requires conflicts { comparison.now.settings.conflicts ≤ MAX_CONFLICTS }
    ensures found { let check : Check = record { left = comparison.now.left.now; right = comparison.now.right.now; settings = comparison.now.settings; assumed = option_map (λ path. path.now) comparison.now.assumed } in
        SettlesFound (S.held shelf.old) (S.faults shelf.old) (S.faults shelf.new) check result }
    ensures keeps { SameHeld (S.held shelf.old) (S.held shelf.new) }
    ensures later { NoneFell (S.faults shelf.old) (S.faults shelf.new) }
    ensures served { All (S.serves shelf.old) (all_paths comparison.now.left.now comparison.now.right.now (option_map (λ path. path.now) comparison.now.assumed)) → IsErrOf result Stop.ReadFault → ⊥ }
    ensures serving { (other : List ℕ) → S.serves shelf.old other → S.serves shelf.new other }
{
    match load(alloc, shelf, comparison.left) {
        Ok(a) => settle_with(alloc, &a, comparison, shelf),
        Err(error) => load_end(File::A, error),
    }
}

/// Loads B, and then the assumption where there is one, and compares A with B.
fn settle_with<S: Shelf>(
    alloc: Global,
    a: &Net,
    comparison: &Comparison<'_>,
    shelf: &mut S,
) -> Result<Finding, Stop>
    requires always { comparison.now.settings.reset ≡ false }
    requires conflicts { comparison.now.settings.conflicts ≤ MAX_CONFLICTS }
    requires left { IsComparable a.now }
    ensures found { SettlesBeside (S.held shelf.old) (S.faults shelf.old) (S.faults shelf.new) a.now comparison.now.right.now comparison.now.settings (option_map (λ path. path.now) comparison.now.assumed) result }
    ensures keeps { SameHeld (S.held shelf.old) (S.held shelf.new) }
    ensures later { NoneFell (S.faults shelf.old) (S.faults shelf.new) }
    ensures served { S.serves shelf.old comparison.now.right.now → All (S.serves shelf.old) (assumed_paths (option_map (λ path. path.now) comparison.now.assumed)) → IsErrOf result Stop.ReadFault → ⊥ }
    ensures serving { (other : List ℕ) → S.serves shelf.old other → S.serves shelf.new other }
{
    match load(alloc, shelf, comparison.right) {
        Ok(b) => match comparison.assumed {
            Some(path) => settle_assuming(alloc, a, &b, path, &comparison.settings, shelf),
            None => {
                let settled = settle(alloc, a, &b, &comparison.settings);
                settled_end(alloc, &comparison.settings, settled)
            }
        },
        Err(error) => load_end(File::B, error),
    }
}

/// Loads the assumption, and compares A with B under it.
fn settle_assuming<S: Shelf>(
    alloc: Global,
    a: &Net,
    b: &Net,
    path: &str,
    settings: &Settings,
    shelf: &mut S,
) -> Result<Finding, Stop>
    requires always { settings.now.reset ≡ false }
    requires conflicts { settings.now.conflicts ≤ MAX_CONFLICTS }
    requires left { IsComparable a.now }
    requires right { IsComparable b.now }
    ensures found { SettlesBoth (S.held shelf.old) (S.faults shelf.old) (S.faults shelf.new) a.now b.now settings.now (Some path.now) result }
    ensures keeps { SameHeld (S.held shelf.old) (S.held shelf.new) }
    ensures later { NoneFell (S.faults shelf.old) (S.faults shelf.new) }
    ensures served { S.serves shelf.old path.now → IsErrOf result Stop.ReadFault → ⊥ }
    ensures serving { (other : List ℕ) → S.serves shelf.old other → S.serves shelf.new other }
{
    match load(alloc, shelf, path) {
        Ok(c) => {
            let settled = settle_under(alloc, a, b, &c, settings);
            settled_end(alloc, settings, settled)
        }
        Err(error) => load_end(File::C, error),
    }
}

/// What is found by a comparison with cares.
fn settled_end(
    alloc: Global,
    settings: &Settings,
    settled: Result<Settled, CompareError>,
) -> Result<Finding, Stop>
    requires { CanTell settings.now settled }
    ensures { IsSettledEnd settings.now settled result }
{
    match settled {
        Ok(settled) => match found_of(alloc, settled, settings) {
            Ok(finding) => Ok(finding),
            Err(_) => Err(Stop::NoMemory),
        },
        Err(error) => compare_end(*settings, Err(error)),
    }
}
