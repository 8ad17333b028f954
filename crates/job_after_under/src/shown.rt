//! The search under an assumption for a difference behind the rows of a stimulus.

use cycle_search::Searched;
use cycle_under::{SearchUnder, UnderError, search_cycles_under};
use flat_net::Net;
use job_after::NetSearch;
use sec_base::NoMemory;
use std::alloc::Global;

/// A search under an assumption, and how far it goes.
#[derive(Clone, Copy)]
pub(crate) struct AssumedSearch<'a> {
    pub(crate) assumed: &'a Net,
    /// The last cycle behind the rows that is to be compared, at most 1,000.
    pub(crate) cycles: u32,
    /// The greatest number of conflicts of each query, 0 to 200,000.
    pub(crate) conflicts: u32,
}

impl NetSearch for AssumedSearch<'_> {
    ghost use Rattle.std.specs.Prelude.{◌≤◌};
    ghost use Rattle.sec_base.specs.declared.limits.TheConstants.{MAX_CONFLICTS};
    ghost use Rattle.flat_net.specs.Comparable.{IsComparable};
    ghost use Rattle.flat_net.specs.View.{circuit_of};
    ghost use Rattle.job_after_under.specs.Judged.{GoesOnMeeting};

    ghost can_search = { λ s. IsComparable s.assumed.now × (s.conflicts ≤ MAX_CONFLICTS) × (s.cycles ≤ 1000) };

    ghost finds = { λ s. GoesOnMeeting (circuit_of s.assumed.now) };

    fn search(
        &self,
        alloc: Global,
        a: &Net,
        b: &Net,
        cycles: u32,
        conflicts: u32,
    ) -> Result<Option<Searched>, NoMemory> {
        let last = self.cycles.min(cycles);
        let most = self.conflicts.min(conflicts);
        match search_cycles_under(alloc, a, b, self.assumed, last, most) {
            Ok(SearchUnder::Searched(_, searched)) => Ok(Some(searched)),
            Err(UnderError::NoMemory) => Err(NoMemory),
            _ => Ok(None),
        }
    }
}
