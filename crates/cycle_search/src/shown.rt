//! What shows the verdict of a cycle.

ghost use Rattle.std.specs.Prelude.{IfOk};
ghost use Rattle.base_tables.specs.Table.{AreDistinct};
ghost use Rattle.cycle_search.specs.Shown.{CanBeShownIn, IsShownIn};

use obligations::outcome::PairResult;
use obligations::{Obligation, VerdictAt, copy_name};
use reset_form::reset_functions::{Bases, Functions};
use reset_form::{ResetVerdict, witness_in};
use sec_base::NoMemory;
use sec_setup::Setup;
use std::alloc::Global;

/// The verdict of the pairs in this cycle, with the sequence and the power-ups of a difference.
pub fn show(
    alloc: Global,
    setup: &Setup<'_>,
    bases: Bases,
    functions: &Functions,
    asked: &[Obligation],
    results: &[PairResult],
    cycle: u32,
    at: VerdictAt,
) -> Result<ResetVerdict, NoMemory>
    requires shown { CanBeShownIn functions.now asked.now results.now at }
    requires distinct { AreDistinct setup.now.columns }
    ensures { IfOk result (IsShownIn setup.now bases functions.now asked.now results.now cycle at) }
{
    match at {
        VerdictAt::Equal => Ok(ResetVerdict::Equal),
        VerdictAt::Different(difference) => {
            let witness = witness_in(alloc, setup, bases, functions, asked, cycle, &difference)?;
            Ok(ResetVerdict::Different(witness))
        }
        VerdictAt::Limit(place) => {
            let name = copy_name(&results[place].name)?;
            Ok(ResetVerdict::Limit(name))
        }
        VerdictAt::NotShown(_) => unreachable!(),
    }
}
