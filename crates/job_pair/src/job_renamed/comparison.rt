//! Two files compared, with the latches of one under the names that a third gives them.

ghost use Rattle.std.specs.Prelude.{◌≡◌, ◌≤◌, ℕ, List, false, length, IsErrOf};
ghost use Rattle.base_shelves.specs.Outside.{Rose, SameHeld, NoneFell};
ghost use Rattle.flat_net.specs.Comparable.{IsComparable};
ghost use Rattle.job_pair.specs.job_renamed.Ends.{RenamedEnds, EndsBeside, EndsWithText, RenamedFound, pairs_end, fetch_end};

use crate::job_renamed::renamed_net::{PairsStop, renamed_net};
use base_shelves::{FetchError, Shelf, fetch};
use flat_net::Net;
use job_base::sec_files::job_files::load_end;
use job_base::sec_files::load;
use job_base::{File, Finding, PairsFault, Refusal, Stop};
use job_check::compare_end;
use job_check::sec_check::{Settings, compare};
use sec_base::{MAX_CONFLICTS, MAX_FILE_BYTES};
use std::alloc::Global;

/// The paths of two circuits and of the text that pairs their latches, and how the circuits are to be compared.
#[derive(Clone, Copy)]
pub struct RenamedComparison<'a> {
    pub left: &'a str,
    pub right: &'a str,
    pub pairs: &'a str,
    pub settings: Settings,
}

/// Loads both circuits, A first, and then the text, and compares A with B, whose latches have the names that the text gives them. Each
/// query is over all power-ups.
pub fn compare_renamed<S: Shelf>(
    alloc: Global,
    comparison: &RenamedComparison<'_>,
    shelf: &mut S,
) -> Result<Finding, Stop>
    requires conflicts { comparison.now.settings.conflicts ≤ MAX_CONFLICTS }
    requires always { comparison.now.settings.reset ≡ false }
    ensures found { RenamedFound (S.held shelf.old) (S.faults shelf.old) (S.faults shelf.new) comparison.now.settings comparison.now.left.now comparison.now.right.now comparison.now.pairs.now result }
    ensures keeps { SameHeld (S.held shelf.old) (S.held shelf.new) }
    ensures later { NoneFell (S.faults shelf.old) (S.faults shelf.new) }
    ensures served { S.serves shelf.old comparison.now.left.now → S.serves shelf.old comparison.now.right.now → S.serves shelf.old comparison.now.pairs.now → IsErrOf result Stop.ReadFault → ⊥ }
    ensures serving { (other : List ℕ) → S.serves shelf.old other → S.serves shelf.new other }
{
    match load(alloc, shelf, comparison.left) {
        Ok(a) => compare_with(alloc, &a, comparison, shelf),
        Err(error) => load_end(File::A, error),
    }
}

/// Loads B, and goes on with both.
fn compare_with<S: Shelf>(
    alloc: Global,
    a: &Net,
    comparison: &RenamedComparison<'_>,
    shelf: &mut S,
) -> Result<Finding, Stop>
    requires conflicts { comparison.now.settings.conflicts ≤ MAX_CONFLICTS }
    requires always { comparison.now.settings.reset ≡ false }
    requires left { IsComparable a.now }
    ensures found { EndsBeside (S.held shelf.old) (S.faults shelf.old) (S.faults shelf.new) a.now comparison.now.right.now comparison.now.pairs.now comparison.now.settings result }
    ensures keeps { SameHeld (S.held shelf.old) (S.held shelf.new) }
    ensures later { NoneFell (S.faults shelf.old) (S.faults shelf.new) }
    ensures served { S.serves shelf.old comparison.now.right.now → S.serves shelf.old comparison.now.pairs.now → IsErrOf result Stop.ReadFault → ⊥ }
    ensures serving { (other : List ℕ) → S.serves shelf.old other → S.serves shelf.new other }
{
    match load(alloc, shelf, comparison.right) {
        Ok(b) => compare_both(alloc, a, &b, comparison, shelf),
        Err(error) => load_end(File::B, error),
    }
}

/// Fetches the text, and compares A with B under the names that it gives.
fn compare_both<S: Shelf>(
    alloc: Global,
    a: &Net,
    b: &Net,
    comparison: &RenamedComparison<'_>,
    shelf: &mut S,
) -> Result<Finding, Stop>
    requires conflicts { comparison.now.settings.conflicts ≤ MAX_CONFLICTS }
    requires always { comparison.now.settings.reset ≡ false }
    requires left { IsComparable a.now }
    requires right { IsComparable b.now }
    ensures found { let path = comparison.now.pairs.now in
        EndsWithText (S.held shelf.old path) (Rose (S.faults shelf.old path) (S.faults shelf.new path)) a.now b.now comparison.now.settings result }
    ensures keeps { SameHeld (S.held shelf.old) (S.held shelf.new) }
    ensures later { NoneFell (S.faults shelf.old) (S.faults shelf.new) }
    ensures served { S.serves shelf.old comparison.now.pairs.now → IsErrOf result Stop.ReadFault → ⊥ }
    ensures serving { (other : List ℕ) → S.serves shelf.old other → S.serves shelf.new other }
{
    match fetch(alloc, shelf, comparison.pairs, MAX_FILE_BYTES) {
        Ok(text) => compare_nets(alloc, a, b, text.as_slice(), &comparison.settings),
        Err(error) => fetch_end(error),
    }
}

/// Compares A with B under the names that the text gives.
fn compare_nets(
    alloc: Global,
    a: &Net,
    b: &Net,
    text: &[u8],
    settings: &Settings,
) -> Result<Finding, Stop>
    requires short { length text.now ≤ MAX_FILE_BYTES }
    requires conflicts { settings.now.conflicts ≤ MAX_CONFLICTS }
    requires always { settings.now.reset ≡ false }
    requires left { IsComparable a.now }
    requires right { IsComparable b.now }
    ensures { RenamedEnds text.now settings.now a.now b.now result }
{
    match renamed_net(alloc, a, b, text) {
        Ok(right) => {
            let compared = compare(alloc, a, &right, settings);
            compare_end(*settings, compared)
        }
        Err(stop) => pairs_end(stop),
    }
}

/// What is found where the text gives the latches no names.
fn pairs_end(stop: PairsStop) -> Result<Finding, Stop>
    ensures { result ≡ pairs_end stop }
{
    match stop {
        PairsStop::Line(line, kind) => Ok(Finding::Refused(Refusal::Pairs(PairsFault::Line(
            line, kind,
        )))),
        PairsStop::NoMemory => Err(Stop::NoMemory),
    }
}

/// What is found where the text isn't fetched.
fn fetch_end(error: FetchError) -> Result<Finding, Stop>
    ensures { result ≡ fetch_end error }
{
    match error {
        FetchError::Failed => Err(Stop::ReadFault),
        FetchError::TooLong => Ok(Finding::Refused(Refusal::Pairs(PairsFault::TooLong))),
        FetchError::NoMemory => Err(Stop::NoMemory),
    }
}
