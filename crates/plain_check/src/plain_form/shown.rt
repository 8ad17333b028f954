//! The verdict of a comparison, with what shows it.

ghost use Rattle.std.specs.Prelude.{◌≡◌, IfOk};
ghost use Rattle.base_tables.specs.Table.{AreDistinct};
ghost use Rattle.plain_check.specs.plain_form.Shown.{CanBeShown, IsShowable, IsShown, IsWitnessAt};

use obligations::outcome::{LimitAt, PairResult, Verdict, Why, Witness};
use obligations::{Difference, Obligation, VerdictAt, copy_name};
use plain_asked::{Functions, witness_of};
use sec_base::{NoMemory, Words};
use std::alloc::Global;

/// The verdict at an obligation, with the sequence of its difference over the inputs of these names.
pub(crate) fn show(
    alloc: Global,
    functions: &Functions,
    columns: &Words,
    asked: &[Obligation],
    results: &[PairResult],
    at: VerdictAt,
) -> Result<Verdict, NoMemory>
    requires shown { CanBeShown functions.now columns.now asked.now results.now at }
    requires distinct { AreDistinct columns.now }
    ensures { IfOk result (IsShown functions.now columns.now asked.now results.now at) }
{
    match at {
        VerdictAt::Equal => Ok(Verdict::Equal),
        VerdictAt::Different(difference) => {
            let witness = witness_at(alloc, functions, columns, asked, &difference)?;
            Ok(Verdict::Different(witness))
        }
        VerdictAt::Limit(place) => {
            let name = copy_name(&results[place].name)?;
            Ok(Verdict::Limit(LimitAt::Pair(name)))
        }
        VerdictAt::NotShown(difference) => {
            let witness = witness_at(alloc, functions, columns, asked, &difference)?;
            Ok(Verdict::NotShown(Why::Cut(witness)))
        }
    }
}

/// The sequence of a difference.
fn witness_at(
    alloc: Global,
    functions: &Functions,
    columns: &Words,
    asked: &[Obligation],
    difference: &Difference,
) -> Result<Witness, NoMemory>
    requires shown { IsShowable functions.now columns.now asked.now difference.now }
    requires distinct { AreDistinct columns.now }
    ensures { IfOk result (IsWitnessAt functions.now columns.now asked.now difference.now) }
{
    let obligation = &asked[difference.pair];
    let query = &obligation.queries.as_slice()[difference.query];
    witness_of(
        alloc,
        functions,
        query,
        &difference.bits,
        &obligation.name,
        obligation.size,
        columns,
    )
}
