//! The values of both sides of a query.

ghost use Rattle.std.specs.Prelude.{◌≡◌, ◌≢◌, ◌*◌, ◌<◌, [], ◌∷◌, length, IfOk};
ghost use Rattle.std.specs.List.{AllPairs};
ghost use Rattle.class_search.specs.class_separations.cone_values.lane_eval.Tables.{Covers};
ghost use Rattle.obligations.specs.outcome.pair_decide.Queries.{IsQuery, assigned_to};
ghost use Rattle.aig.specs.Values.{value};
ghost use Rattle.event_form.specs.event_findings.event_witness.Sequences.{AreSidesOf};

use crate::Events;
use aig::Lit;
use class_search::class_separations::cone_values::value_in_cone;
use obligations::outcome::Query;
use sec_base::NoMemory;
use std::alloc::Global;

/// The values of both sides of the query under these bits of its variables.
pub(crate) fn sides_of(
    alloc: Global,
    events: &Events,
    query: &Query,
    bits: &[bool],
) -> Result<(bool, bool), NoMemory>
    requires query { IsQuery events.now.events.graph query.now }
    requires each { length bits.now ≡ length query.now.vars }
    ensures { IfOk result (AreSidesOf events.now.events query.now bits.now) }
{
    let left = side_of(alloc, events, query, query.left, bits)?;
    let right = side_of(alloc, events, query, query.right, bits)?;
    Ok((left, right))
}

/// The literal's value under these bits of the query's variables.
fn side_of(
    alloc: Global,
    events: &Events,
    query: &Query,
    l: Lit,
    bits: &[bool],
) -> Result<bool, NoMemory>
    requires literal { l.0 < 2 * length events.now.events.graph }
    requires each { length bits.now ≡ length query.now.vars }
    requires distinct { AllPairs (λ u v. u ≢ v) query.now.vars }
    requires covers { Covers events.now.events.graph (l.0 ∷ []) query.now.vars }
    ensures { IfOk result (λ bit. bit ≡ value events.now.events.graph (assigned_to query.now.vars bits.now) l.0) }
{
    value_in_cone(alloc, events.aig(), l, query.vars.as_slice(), bits)
}
