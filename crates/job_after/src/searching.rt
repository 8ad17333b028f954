//! Where a search behind the rows of a stimulus begins, and how two nets are searched.

ghost use Rattle.std.specs.Prelude.{IfOk, IfSome};
ghost use Rattle.flat_net.specs.Comparable.{IsComparable};
ghost use Rattle.cycle_search.specs.declared.found.Searched.{Searched};

use base_tables::NameTable;
use cycle_search::{SearchError, Searched, search_cycles};
use flat_net::Net;
use sec_base::NoMemory;
use std::alloc::Global;
use witness_report::Stimulus;

/// How two nets are searched for a difference from their initial values, with or without an assumption.
pub trait NetSearch {
    /// That nets can be searched so.
    ghost can_search: { Self → Type 0 };

    /// What is said of all that such a search finds.
    ghost finds: { Self → Searched → Type 0 };

    /// What is found of these nets up to this last cycle, or to the search's own if that is less, with at most so many conflicts for each query,
    /// or its own; nothing where the search refuses them.
    fn search(
        &self,
        alloc: Global,
        a: &Net,
        b: &Net,
        cycles: u32,
        conflicts: u32,
    ) -> Result<Option<Searched>, NoMemory>
        requires can { can_search self.now }
        requires left { IsComparable a.now }
        requires right { IsComparable b.now }
        ensures { IfOk result (λ searched. IfSome searched (finds self.now)) };
}

/// Where a search begins, and how far it goes: the stimulus, with the table of its names, and what is known of both circuits' latches
/// behind its rows. By itself it searches without an assumption.
#[derive(Clone, Copy)]
pub struct Start<'a> {
    pub header: &'a NameTable,
    pub stimulus: &'a Stimulus,
    pub left: &'a [Option<bool>],
    pub right: &'a [Option<bool>],
    /// The last cycle behind the rows that is to be compared; the first one is 0.
    pub cycles: u32,
    /// The greatest number of conflicts of each query, 0 to 200,000.
    pub conflicts: u32,
}

impl NetSearch for Start<'_> {
    ghost use Rattle.std.specs.Prelude.{◌≤◌};
    ghost use Rattle.sec_base.specs.declared.limits.TheConstants.{MAX_CONFLICTS};

    ghost can_search = { λ s. s.conflicts ≤ MAX_CONFLICTS };

    ghost finds = { λ _ _. Unit {0} };

    fn search(
        &self,
        alloc: Global,
        a: &Net,
        b: &Net,
        cycles: u32,
        conflicts: u32,
    ) -> Result<Option<Searched>, NoMemory> {
        let last = self.cycles.min(cycles);
        let most = self.conflicts.min(conflicts);
        match search_cycles(alloc, a, b, last, most) {
            Ok(searched) => Ok(Some(searched)),
            Err(SearchError::NoMemory) => Err(NoMemory),
            Err(_) => Ok(None),
        }
    }
}
