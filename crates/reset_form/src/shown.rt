//! The verdict of a comparison, with what shows it.

ghost use Rattle.std.specs.Prelude.{◌≡◌, ◌≤◌, IfOk};
ghost use Rattle.base_tables.specs.Table.{AreDistinct};
ghost use Rattle.reset_form.specs.Shown.{CanBeShown, IsShowable, IsShown, IsWitnessAt};

use crate::reset_asked::ResetVerdict;
use crate::reset_functions::{Bases, Functions};
use crate::witness::witness_in;
use obligations::outcome::{PairResult, ResetWitness};
use obligations::{Difference, Obligation, VerdictAt, copy_name};
use sec_base::NoMemory;
use sec_setup::Setup;
use std::alloc::Global;

/// The verdict at an obligation, with the sequence and the power-ups of its difference.
pub(crate) fn show(
    alloc: Global,
    setup: &Setup<'_>,
    bases: Bases,
    functions: &Functions,
    asked: &[Obligation],
    results: &[PairResult],
    at: VerdictAt,
) -> Result<ResetVerdict, NoMemory>
    requires shown { CanBeShown functions.now asked.now results.now at }
    requires distinct { AreDistinct setup.now.columns }
    ensures { IfOk result (IsShown setup.now bases functions.now asked.now results.now at) }
{
    match at {
        VerdictAt::Equal => Ok(ResetVerdict::Equal),
        VerdictAt::Different(difference) => {
            let witness = witness_at(alloc, setup, bases, functions, asked, &difference)?;
            Ok(ResetVerdict::Different(witness))
        }
        VerdictAt::Limit(place) => {
            let name = copy_name(&results[place].name)?;
            Ok(ResetVerdict::Limit(name))
        }
        VerdictAt::NotShown(_) => unreachable!(),
    }
}

/// The sequence of a difference, which ends in the cycle of its query, with both power-ups.
fn witness_at(
    alloc: Global,
    setup: &Setup<'_>,
    bases: Bases,
    functions: &Functions,
    asked: &[Obligation],
    difference: &Difference,
) -> Result<ResetWitness, NoMemory>
    requires shown { IsShowable functions.now asked.now difference.now }
    requires distinct { AreDistinct setup.now.columns }
    ensures { IfOk result (IsWitnessAt setup.now bases functions.now asked.now difference.now) }
{
    let obligation = &asked[difference.pair];
    let cycle = cycle_of(difference.query, obligation.size);
    witness_in(alloc, setup, bases, functions, asked, cycle, difference)
}

/// The cycle of the query at a place, which is at most the depth.
fn cycle_of(query: usize, depth: u32) -> u32
    requires { query ≤ depth }
    ensures { result ≡ query }
{
    query as u32
}
