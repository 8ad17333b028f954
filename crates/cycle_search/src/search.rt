//! The search.

ghost use Rattle.std.specs.Prelude.{◌≡◌, ◌≤◌, true, false};
ghost use Rattle.cycle_search.specs.Depths.{AreDeepUpTo};
ghost use Rattle.flat_net.specs.Comparable.{IsComparable};
ghost use Rattle.cycle_search.specs.Settings.{IsSetting};
ghost use Rattle.cycle_search.specs.Searches.{Searches, SearchesIn, IsAgreed, IsVerdictOf};
ghost use Rattle.cycle_search.specs.Refusals.{mismatch_of};

use crate::cycle::{InCycle, begin, compare_cycle};
use crate::depths::reaches_depths;
use crate::found::{SearchError, SearchVerdict, Searched};
use crate::setting::set_up_cycles;
use flat_net::Net;
use reset_form::reset_functions::bases_of;
use reset_form::{ResetError, ResetVerdict};
use sec_base::{MAX_CONFLICTS, NoMemory, Side};
use sec_setup::{Nets, Setup, SetupError, graph_of, shared_names};
use std::alloc::Global;

/// Compares the pairs of outputs of one name in the cycles from 0 on, where runs begin with the latches' initial values, up to the last of
/// `cycles`, or up to the first in which a pair differs or isn't decided. Latches may lie on cycles. The search ends before a cycle in
/// which one circuit's unfoldings would weigh more than 2,000,000 together with those of all cycles before, and where a last cycle is as
/// great as the depth of each pair. It refuses, in this order: interfaces that don't match; an unfolding of A in cycle 0 that is too
/// large, one of B.
pub fn search_cycles(
    alloc: Global,
    a: &Net,
    b: &Net,
    cycles: u32,
    conflicts: u32,
) -> Result<Searched, SearchError>
    requires left { IsComparable a.now }
    requires right { IsComparable b.now }
    requires conflicts { conflicts ≤ MAX_CONFLICTS }
    ensures { Searches a.now b.now cycles conflicts result }
{
    a.keeps();
    b.keeps();
    let shared = match shared_names(alloc, a, b) {
        Ok(shared) => shared,
        Err(error) => return Err(mismatch_of(error)),
    };
    let left_graph = graph_of(alloc, a)?;
    let right_graph = graph_of(alloc, b)?;
    let nets = Nets {
        left: a,
        right: b,
        left_graph: &left_graph,
        right_graph: &right_graph,
    };
    let setup = set_up_cycles(alloc, &nets, &shared)?;
    let searched = search(alloc, &setup, cycles, conflicts)?;
    Ok(searched)
}

/// The refusal of interfaces that don't match.
pub fn mismatch_of(error: SetupError) -> SearchError
    ensures { result ≡ mismatch_of error }
{
    match error {
        SetupError::Interface(name) => SearchError::Interface(name),
        _ => SearchError::NoMemory,
    }
}

/// The search by what both circuits are compared by.
fn search(
    alloc: Global,
    setup: &Setup<'_>,
    cycles: u32,
    conflicts: u32,
) -> Result<Searched, ResetError>
    requires setup { IsSetting setup.now }
    requires conflicts { conflicts ≤ MAX_CONFLICTS }
    ensures { SearchesIn setup.now cycles conflicts result }
{
    let bases = bases_of(setup)?;
    let mut unfolded = begin(alloc, setup, bases)?;
    let mut found = compare_cycle(alloc, setup, bases, &mut unfolded, 0, conflicts)?;
    for last in 0..cycles {
        if ends(setup, &found, last) {
            return Ok(searched_of(setup, found, last, None));
        }
        match compare_cycle(alloc, setup, bases, &mut unfolded, last + 1, conflicts) {
            Ok(next) => found = next,
            Err(ResetError::TooLarge(side)) => {
                return Ok(searched_of(setup, found, last, Some(side)));
            }
            Err(ResetError::NoMemory) => return Err(ResetError::NoMemory),
        }
    }
    Ok(searched_of(setup, found, cycles, None))
}

/// Whether the search ends in this cycle: some pair isn't equal there, or the cycle is as great as each pair's depth.
pub fn ends(setup: &Setup<'_>, found: &InCycle, last: u32) -> bool
    requires { IsSetting setup.now }
    ensures goes_on { result ≡ false → found.now.verdict ≡ ResetVerdict.Equal }
    ensures deep { result ≡ true → found.now.verdict ≡ ResetVerdict.Equal → AreDeepUpTo setup.now last }
{
    match found.verdict {
        ResetVerdict::Equal => reaches_depths(setup, last),
        _ => true,
    }
}

/// What is found where this is found in the last cycle.
pub fn searched_of(setup: &Setup<'_>, found: InCycle, last: u32, stopped: Option<Side>) -> Searched
    requires { IsSetting setup.now }
    ensures pairs { result.pairs ≡ found.pairs }
    ensures last { result.last ≡ last }
    ensures verdict { IsVerdictOf setup.now last stopped found.verdict result.verdict }
{
    let InCycle { pairs, verdict } = found;
    let verdict = match verdict {
        ResetVerdict::Different(witness) => SearchVerdict::Different(witness),
        ResetVerdict::Limit(name) => SearchVerdict::Limit(name),
        ResetVerdict::Equal => agreed(setup, last, stopped),
    };
    Searched {
        pairs,
        last,
        verdict,
    }
}

/// The verdict where all pairs agree in all cycles up to the last.
fn agreed(setup: &Setup<'_>, last: u32, stopped: Option<Side>) -> SearchVerdict
    requires { IsSetting setup.now }
    ensures { IsAgreed setup.now last stopped result }
{
    if reaches_depths(setup, last) {
        SearchVerdict::Equal
    } else {
        SearchVerdict::NoDifference(stopped)
    }
}
