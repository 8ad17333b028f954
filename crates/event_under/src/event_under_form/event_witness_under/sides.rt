//! The values of both sides of a query.

ghost use Rattle.std.specs.Prelude.{◌≡◌, ◌≢◌, ◌*◌, ◌<◌, [], ◌∷◌, length, IfOk};
ghost use Rattle.std.specs.List.{AllPairs};
ghost use Rattle.aig.specs.Values.{value};
ghost use Rattle.aig.specs.lane_eval.Tables.{Covers};
ghost use Rattle.pair_decide.specs.Queries.{IsQuery, assigned_to};
ghost use Rattle.event_under.specs.event_under_form.event_witness_under.Ready.{AreSidesOf};

use aig::{Aig, Lit};
use class_search::class_separations::cone_values::value_in_cone;
use pair_decide::Query;
use sec_base::NoMemory;
use std::alloc::Global;

/// The values of both sides of the query under these bits of its variables.
pub(crate) fn sides_of(
    alloc: Global,
    aig: &Aig,
    query: &Query,
    bits: &[bool],
) -> Result<(bool, bool), NoMemory>
    requires query { IsQuery aig.now query.now }
    requires each { length bits.now ≡ length query.now.vars }
    ensures { IfOk result (AreSidesOf aig.now query.now bits.now) }
{
    let left = side_of(alloc, aig, query, query.left, bits)?;
    let right = side_of(alloc, aig, query, query.right, bits)?;
    Ok((left, right))
}

/// The literal's value under these bits of the query's variables.
fn side_of(alloc: Global, aig: &Aig, query: &Query, l: Lit, bits: &[bool]) -> Result<bool, NoMemory>
    requires literal { l.0 < 2 * length aig.now }
    requires each { length bits.now ≡ length query.now.vars }
    requires distinct { AllPairs (λ u v. u ≢ v) query.now.vars }
    requires covers { Covers aig.now (l.0 ∷ []) query.now.vars }
    ensures { IfOk result (λ bit. bit ≡ value aig.now (assigned_to query.now.vars bits.now) l.0) }
{
    value_in_cone(alloc, aig, l, query.vars.as_slice(), bits)
}
