//! The search under an assumption.

ghost use Rattle.std.specs.Prelude.{◌≡◌, ◌≤◌, ◌+◌, ◌*◌, true, false};
ghost use Rattle.assume_queries.specs.Parted.{Weighs};
ghost use Rattle.cycle_search.specs.Depths.{AreDeepUpTo};
ghost use Rattle.cycle_search.specs.Searches.{IsAgreed, IsVerdictOf};
ghost use Rattle.cycle_search.specs.Settings.{IsSetting};
ghost use Rattle.cycle_under.specs.Searches.{SearchesInUnder, IsOverUpTo};

use crate::cycle::{begin, compare_cycle};
use assume_queries::assume_sequences::Premise;
use cycle_search::{InCycle, Searched, ends, searched_of};
use reset_form::ResetError;
use reset_form::reset_functions::bases_of;
use sec_base::{MAX_CONFLICTS, MAX_WEIGHT, Side};
use sec_setup::Setup;
use std::alloc::Global;

/// Whether an assumption of this weight weighs more than 2,000,000 in all cycles up to this one.
fn is_over(weight: u32, cycle: u32) -> bool
    ensures over { result ≡ true → IsOverUpTo weight cycle }
    ensures light { result ≡ false → weight * (cycle + 1) ≤ 2000000 }
{
    u64::from(weight) * (u64::from(cycle) + 1) > u64::from(MAX_WEIGHT)
}

/// Compares the pairs in the cycles from 0 on, each query with the assumption in all cycles up to its own as its care, up to the last of
/// `cycles`, or up to the first in which a pair differs or isn't decided. It ends as well before a cycle up to which the assumption would
/// weigh more than 2,000,000 together, or one circuit's outputs would, and where a last cycle is as great as the depth of each pair.
pub fn search_under(
    alloc: Global,
    setup: &Setup<'_>,
    premise: &Premise,
    cycles: u32,
    conflicts: u32,
) -> Result<Searched, ResetError>
    requires setup { IsSetting setup.now }
    requires premise { Weighs premise.now.own premise.now.weight }
    requires cycles { cycles ≤ 1000 }
    requires conflicts { conflicts ≤ MAX_CONFLICTS }
    ensures { SearchesInUnder setup.now premise.now cycles conflicts result }
{
    let bases = bases_of(setup)?;
    let mut unfolded = begin(alloc, setup, bases)?;
    let mut found = compare_cycle(alloc, setup, bases, premise, &mut unfolded, 0, conflicts)?;
    for last in 0..cycles {
        if ends(setup, &found, last) {
            return Ok(searched_of(setup, found, last, None));
        }
        if is_over(premise.weight, last + 1) {
            return Ok(searched_of(setup, found, last, None));
        }
        match compare_cycle(
            alloc,
            setup,
            bases,
            premise,
            &mut unfolded,
            last + 1,
            conflicts,
        ) {
            Ok(next) => found = next,
            Err(ResetError::TooLarge(side)) => {
                return Ok(searched_of(setup, found, last, Some(side)));
            }
            Err(ResetError::NoMemory) => return Err(ResetError::NoMemory),
        }
    }
    Ok(searched_of(setup, found, cycles, None))
}
