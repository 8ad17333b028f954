//! The verdict of a comparison under an assumption, with what shows it.

ghost use Rattle.std.specs.Prelude.{◌≡◌, ◌≤◌, length, IfOk};
ghost use Rattle.base_tables.specs.Table.{AreDistinct};
ghost use Rattle.cbf_unfold.specs.shift_variables.cycle_variables.Cycles.{AreInCycles};
ghost use Rattle.plain_check.specs.asked_under.reset_asked_under.Shown.{CanBeShownUnder, HasPowers, IsShowableUnder, IsShownUnder, IsWitnessAtUnder};

use crate::asked_under::differences::{query_at, with_rows};
use assume_queries::assume_sequences::fill_cycles;
use cbf_unfold::shift_variables::cycle_variables::power_up;
use obligations::outcome::{PairResult, ResetWitness, Witness};
use obligations::{Difference, Obligation, VerdictAt, copy_name};
use pair_decide::Query;
use reset_form::reset_asked::{ResetVerdict, sequence_of};
use reset_form::reset_functions::{Bases, Functions};
use sec_base::{Bits, NoMemory};
use sec_setup::Setup;
use std::alloc::Global;

/// The verdict at an obligation under the assumption, with the sequence and the power-ups of its difference.
pub(crate) fn show_under(
    alloc: Global,
    setup: &Setup<'_>,
    bases: Bases,
    functions: &Functions,
    asked: &[Obligation],
    under: &[Obligation],
    meeting: &Bits,
    results: &[PairResult],
    at: VerdictAt,
) -> Result<ResetVerdict, NoMemory>
    requires shown { CanBeShownUnder functions.now asked.now under.now results.now at }
    requires distinct { AreDistinct setup.now.columns }
    requires row { length meeting.now ≡ length setup.now.columns }
    ensures { IfOk result (IsShownUnder setup.now bases functions.now asked.now under.now meeting.now results.now at) }
{
    match at {
        VerdictAt::Equal => Ok(ResetVerdict::Equal),
        VerdictAt::Different(difference) => {
            let witness = witness_under(
                alloc,
                setup,
                bases,
                functions,
                asked,
                under,
                meeting,
                &difference,
            )?;
            Ok(ResetVerdict::Different(witness))
        }
        VerdictAt::Limit(place) => {
            let name = copy_name(&results[place].name)?;
            Ok(ResetVerdict::Limit(name))
        }
        VerdictAt::NotShown(_) => unreachable!(),
    }
}

/// The sequence of a difference with both power-ups: it has the meeting row in each cycle in which no variable of both sides stands.
fn witness_under(
    alloc: Global,
    setup: &Setup<'_>,
    bases: Bases,
    functions: &Functions,
    asked: &[Obligation],
    under: &[Obligation],
    meeting: &Bits,
    difference: &Difference,
) -> Result<ResetWitness, NoMemory>
    requires shown { IsShowableUnder functions.now asked.now under.now difference.now }
    requires distinct { AreDistinct setup.now.columns }
    requires row { length meeting.now ≡ length setup.now.columns }
    ensures { IfOk result (IsWitnessAtUnder setup.now bases functions.now asked.now under.now meeting.now difference.now) }
{
    let (_, sides) = query_at(asked, difference);
    let (obligation, query) = query_at(under, difference);
    let cycle = cycle_of(difference.query, obligation.size);
    let bits = &difference.bits;
    let witness = sequence_of(
        alloc,
        functions,
        query,
        bits,
        &obligation.name,
        cycle,
        &setup.columns,
    )?;
    let places = &functions.places;
    let vars = sides.vars.as_slice();
    let rows = fill_cycles(alloc, &witness.stimulus.rows, places, vars, meeting)?;
    let filled = with_rows(witness, rows);
    with_powers(alloc, setup, bases, functions, query, bits, filled)
}

/// The cycle of the query at a place, which is at most the depth.
fn cycle_of(query: usize, depth: u32) -> u32
    requires { query ≤ depth }
    ensures { result ≡ query }
{
    query as u32
}

/// The witness with both power-ups by the bits of a query's variables.
fn with_powers(
    alloc: Global,
    setup: &Setup<'_>,
    bases: Bases,
    functions: &Functions,
    query: &Query,
    bits: &Bits,
    witness: Witness,
) -> Result<ResetWitness, NoMemory>
    requires each { length bits.now ≡ length query.now.vars }
    requires in_order { AreInCycles functions.now.places query.now.vars }
    ensures { IfOk result (HasPowers setup.now bases functions.now query.now bits.now witness) }
{
    let places = &functions.places;
    let vars = query.vars.as_slice();
    let left_power = power_up(alloc, setup.left, bases.left, places, vars, bits.as_slice())?;
    let right_power = power_up(
        alloc,
        setup.right,
        bases.right,
        places,
        vars,
        bits.as_slice(),
    )?;
    Ok(ResetWitness {
        witness,
        left_power,
        right_power,
    })
}
