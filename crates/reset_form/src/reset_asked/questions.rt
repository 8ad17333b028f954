//! What the reset form asks of each pair.

ghost use Rattle.std.specs.Prelude.{◌≡◌, ◌<◌, length, slice_get, Some, All, IfOk};
ghost use Rattle.sec_setup.specs.declared.ports.pairs.SignalPair.{SignalPair};
ghost use Rattle.sec_setup.specs.Setup.{IsSetup};
ghost use Rattle.cbf_unfold.specs.shift_variables.cycle_variables.Cycles.{AreInCycles};
ghost use Rattle.reset_form.specs.reset_asked.Asked.{AreAsked, AskedOf, AreCycleQueries, IsCycleQuery};
ghost use Rattle.reset_form.specs.reset_functions.Pairs.{HaveFunctions};

use crate::reset_functions::{Bases, Functions};
use aig::Lit;
use base_tables::PlaceTable;
use cbf_unfold::shift_variables::cycle_variables::merge_cycles;
use cbf_unfold::unfold_places::Unfolded;
use obligations::{Obligation, Queries, copy_name};
use pair_decide::Query;
use sec_base::NoMemory;
use sec_setup::{Setup, pair_depth};
use std::alloc::Global;

/// What is asked of each pair, in order: whether both functions agree always, in each cycle up to the pair's depth.
pub fn ask(
    alloc: Global,
    setup: &Setup<'_>,
    bases: Bases,
    functions: &Functions,
) -> Result<Vec<Obligation>, NoMemory>
    requires setup { IsSetup setup.now }
    requires functions { HaveFunctions setup.now bases functions.now }
    ensures { IfOk result (λ asked. AreAsked setup.now bases functions.now setup.now.pairs asked.items) }
{
    let mut asked = Vec::new(alloc);
    for i in 0..setup.pairs.len() {
        let obligation = obligation_of(alloc, setup, bases, functions, i)?;
        asked.push(obligation)?;
    }
    Ok(asked)
}

/// What is asked of the pair at a place.
fn obligation_of(
    alloc: Global,
    setup: &Setup<'_>,
    bases: Bases,
    functions: &Functions,
    i: usize,
) -> Result<Obligation, NoMemory>
    requires setup { IsSetup setup.now }
    requires functions { HaveFunctions setup.now bases functions.now }
    requires place { i < length setup.now.pairs }
    ensures { IfOk result (λ o. (p : SignalPair) → slice_get setup.now.pairs i ≡ Some p → AskedOf setup.now bases functions.now p o) }
{
    setup.left.keeps();
    setup.right.keeps();
    let pair = &setup.pairs.as_slice()[i];
    let size = pair_depth(setup, pair.left, pair.right);
    let queries = queries_of(
        alloc,
        &functions.places,
        functions.left[i].as_slice(),
        functions.right[i].as_slice(),
    )?;
    let name = copy_name(&pair.name)?;
    Ok(Obligation {
        name,
        size,
        decisive: true,
        queries,
    })
}

/// Whether two signals' functions always agree, as a query for each cycle.
fn queries_of(
    alloc: Global,
    places: &PlaceTable,
    left: &[Unfolded],
    right: &[Unfolded],
) -> Result<Queries, NoMemory>
    requires each { length right.now ≡ length left.now }
    requires left { All (λ u. AreInCycles places.now u.vars) left.now }
    requires right { All (λ u. AreInCycles places.now u.vars) right.now }
    ensures { IfOk result (AreCycleQueries places.now left.now right.now) }
{
    let mut queries = Queries::new(alloc);
    for t in 0..left.len() {
        let query = query_of(alloc, places, &left[t], &right[t])?;
        queries.push(query)?;
    }
    Ok(queries)
}

/// Whether two functions always agree.
fn query_of(
    alloc: Global,
    places: &PlaceTable,
    left: &Unfolded,
    right: &Unfolded,
) -> Result<Query, NoMemory>
    requires left { AreInCycles places.now left.now.vars }
    requires right { AreInCycles places.now right.now.vars }
    ensures { IfOk result (IsCycleQuery places.now left.now right.now) }
{
    let vars = merge_cycles(alloc, places, left.vars.as_slice(), right.vars.as_slice())?;
    Ok(Query {
        left: left.lit,
        right: right.lit,
        care: Lit::TRUE,
        vars,
    })
}
