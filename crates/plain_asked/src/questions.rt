//! What the plain form asks of each pair.

ghost use Rattle.std.specs.Prelude.{◌≡◌, ◌<◌, length, slice_get, Some, IfOk, IfSome};
ghost use Rattle.sec_setup.specs.declared.ports.pairs.SignalPair.{SignalPair};
ghost use Rattle.sec_setup.specs.Setup.{IsSetup};
ghost use Rattle.plain_asked.specs.Apart.{HaveFunctionsApart};
ghost use Rattle.plain_asked.specs.Asked.{AreAsked, AreAskedApart, AreAskedAt, AskedApart, AskedOf, AsksWith, IsOnlyQuery, StandAt};
ghost use Rattle.plain_asked.specs.Pairs.{HaveFunctions};
ghost use Rattle.plain_asked.specs.Variables.{AreInOrder};

use crate::apart::PairFunctions;
use crate::functions::Functions;
use aig::Lit;
use base_tables::PlaceTable;
use cbf_unfold::Unfolded;
use cbf_unfold::shift_variables::merge_variables;
use outcome_fits::{Obligation, Queries, copy_name};
use pair_decide::Query;
use sec_base::NoMemory;
use sec_setup::{Setup, pair_depth};
use std::alloc::Global;

/// What is asked of each pair, in order: whether both functions agree always. A difference shows that the circuits differ where no
/// latch is cut open.
pub fn ask(
    alloc: Global,
    setup: &Setup<'_>,
    functions: &Functions,
) -> Result<Vec<Obligation>, NoMemory>
    requires setup { IsSetup setup.now }
    requires functions { HaveFunctions setup.now functions.now }
    ensures { IfOk result (λ asked. AreAsked setup.now functions.now setup.now.pairs asked.items) }
{
    let mut asked = Vec::new(alloc);
    for i in 0..setup.pairs.len() {
        let obligation = obligation_of(alloc, setup, functions, i)?;
        asked.push(obligation)?;
    }
    Ok(asked)
}

/// What is asked of each pair, in order, by the functions of those whose literals differ: whether both functions agree always. Of a
/// pair whose signals have one literal nothing is asked.
pub fn ask_apart(
    alloc: Global,
    setup: &Setup<'_>,
    functions: &PairFunctions,
) -> Result<Vec<Obligation>, NoMemory>
    requires setup { IsSetup setup.now }
    requires functions { HaveFunctionsApart setup.now functions.now }
    ensures { IfOk result (λ asked. AreAskedApart setup.now functions.now.functions setup.now.pairs asked.items) }
{
    let mut asked = Vec::new(alloc);
    for i in 0..setup.pairs.len() {
        let obligation = obligation_apart(alloc, setup, functions, i)?;
        asked.push(obligation)?;
    }
    Ok(asked)
}

/// What is asked of the pair at a place.
fn obligation_of(
    alloc: Global,
    setup: &Setup<'_>,
    functions: &Functions,
    i: usize,
) -> Result<Obligation, NoMemory>
    requires setup { IsSetup setup.now }
    requires functions { HaveFunctions setup.now functions.now }
    requires place { i < length setup.now.pairs }
    ensures { IfOk result (λ o. (p : SignalPair) → slice_get setup.now.pairs i ≡ Some p → AskedOf setup.now functions.now p o) }
{
    let queries = queries_of(
        alloc,
        &functions.places,
        &functions.left[i],
        &functions.right[i],
    )?;
    obligation_with(setup, i, queries)
}

/// What is asked of the pair at a place where the functions of those are given whose literals differ.
fn obligation_apart(
    alloc: Global,
    setup: &Setup<'_>,
    functions: &PairFunctions,
    i: usize,
) -> Result<Obligation, NoMemory>
    requires setup { IsSetup setup.now }
    requires functions { HaveFunctionsApart setup.now functions.now }
    requires place { i < length setup.now.pairs }
    ensures { IfOk result (λ o. (p : SignalPair) → slice_get setup.now.pairs i ≡ Some p → AskedApart setup.now functions.now.functions p o) }
{
    let queries = queries_at(alloc, &functions.functions, functions.at[i])?;
    obligation_with(setup, i, queries)
}

/// The pair at a place, with these queries.
fn obligation_with(setup: &Setup<'_>, i: usize, queries: Queries) -> Result<Obligation, NoMemory>
    requires setup { IsSetup setup.now }
    requires place { i < length setup.now.pairs }
    ensures { IfOk result (λ o. (p : SignalPair) → slice_get setup.now.pairs i ≡ Some p → AsksWith setup.now p queries o) }
{
    setup.left.keeps();
    setup.right.keeps();
    let pair = &setup.pairs.as_slice()[i];
    let size = pair_depth(setup, pair.left, pair.right);
    let name = copy_name(&pair.name)?;
    Ok(Obligation {
        name,
        size,
        decisive: !setup.is_cut(),
        queries,
    })
}

/// Whether the functions at a place always agree; nothing is asked where there is none.
fn queries_at(
    alloc: Global,
    functions: &Functions,
    place: Option<usize>,
) -> Result<Queries, NoMemory>
    requires { IfSome place (StandAt functions.now) }
    ensures { IfOk result (AreAskedAt functions.now place) }
{
    let Some(k) = place else {
        return Ok(Queries::new(alloc));
    };
    queries_of(
        alloc,
        &functions.places,
        &functions.left[k],
        &functions.right[k],
    )
}

/// Whether two functions always agree, as one query.
fn queries_of(
    alloc: Global,
    places: &PlaceTable,
    left: &Unfolded,
    right: &Unfolded,
) -> Result<Queries, NoMemory>
    requires left { AreInOrder places.now left.now.vars }
    requires right { AreInOrder places.now right.now.vars }
    ensures { IfOk result (IsOnlyQuery places.now left.now right.now) }
{
    let vars = merge_variables(alloc, places, left.vars.as_slice(), right.vars.as_slice())?;
    let mut queries = Queries::new(alloc);
    queries.push(Query {
        left: left.lit,
        right: right.lit,
        care: Lit::TRUE,
        vars,
    })?;
    Ok(queries)
}
