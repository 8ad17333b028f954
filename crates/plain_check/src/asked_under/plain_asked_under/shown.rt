//! The verdict of a comparison under an assumption, with what shows it.

ghost use Rattle.std.specs.Prelude.{◌≡◌, length, IfOk};
ghost use Rattle.base_tables.specs.Table.{AreDistinct};
ghost use Rattle.plain_check.specs.asked_under.plain_asked_under.Shown.{CanBeShownUnder, IsShowableUnder, IsShownUnder, IsWitnessAtUnder};

use crate::asked_under::differences::{query_at, with_rows};
use assume_queries::assume_sequences::fill_shifts;
use obligations::outcome::{LimitAt, PairResult, Verdict, Why, Witness};
use obligations::{Difference, Obligation, VerdictAt, copy_name};
use plain_asked::{Functions, witness_of};
use sec_base::{Bits, NoMemory, Words};
use std::alloc::Global;

/// The verdict at an obligation under the assumption, with the sequence of its difference over the inputs of these names.
pub(crate) fn show_under(
    alloc: Global,
    functions: &Functions,
    columns: &Words,
    asked: &[Obligation],
    under: &[Obligation],
    meeting: &Bits,
    results: &[PairResult],
    at: VerdictAt,
) -> Result<Verdict, NoMemory>
    requires shown { CanBeShownUnder functions.now columns.now asked.now under.now results.now at }
    requires distinct { AreDistinct columns.now }
    requires row { length meeting.now ≡ length columns.now }
    ensures { IfOk result (IsShownUnder functions.now columns.now asked.now under.now meeting.now results.now at) }
{
    match at {
        VerdictAt::Equal => Ok(Verdict::Equal),
        VerdictAt::Different(difference) => {
            let witness = witness_under(
                alloc,
                functions,
                columns,
                asked,
                under,
                meeting,
                &difference,
            )?;
            Ok(Verdict::Different(witness))
        }
        VerdictAt::Limit(place) => {
            let name = copy_name(&results[place].name)?;
            Ok(Verdict::Limit(LimitAt::Pair(name)))
        }
        VerdictAt::NotShown(difference) => {
            let witness = witness_under(
                alloc,
                functions,
                columns,
                asked,
                under,
                meeting,
                &difference,
            )?;
            Ok(Verdict::NotShown(Why::Cut(witness)))
        }
    }
}

/// The sequence of a difference: it has the meeting row in each cycle at whose shift no variable of both sides stands.
fn witness_under(
    alloc: Global,
    functions: &Functions,
    columns: &Words,
    asked: &[Obligation],
    under: &[Obligation],
    meeting: &Bits,
    difference: &Difference,
) -> Result<Witness, NoMemory>
    requires shown { IsShowableUnder functions.now columns.now asked.now under.now difference.now }
    requires distinct { AreDistinct columns.now }
    requires row { length meeting.now ≡ length columns.now }
    ensures { IfOk result (IsWitnessAtUnder functions.now columns.now asked.now under.now meeting.now difference.now) }
{
    let (_, sides) = query_at(asked, difference);
    let (obligation, query) = query_at(under, difference);
    let witness = witness_of(
        alloc,
        functions,
        query,
        &difference.bits,
        &obligation.name,
        obligation.size,
        columns,
    )?;
    let places = &functions.places;
    let vars = sides.vars.as_slice();
    let rows = fill_shifts(alloc, &witness.stimulus.rows, places, vars, meeting)?;
    Ok(with_rows(witness, rows))
}
