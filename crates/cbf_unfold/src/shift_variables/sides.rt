//! The values of a query's sides, by the bits of its variables.

ghost use Rattle.std.specs.Prelude.{◌≡◌, ◌≢◌, ℕ, ◌*◌, ◌<◌, ◌≤◌, length, false, slice_index_or, All, IfOk};
ghost use Rattle.std.specs.List.{AllPairs};
ghost use Rattle.aig.specs.Graph.{vars_of};
ghost use Rattle.aig.specs.Values.{value};
ghost use Rattle.pair_decide.specs.Queries.{assigned_to};

use crate::shift_variables::rows::bits_at;
use crate::unfold_places::{NoMemory, PlaceTable};
use aig::Aig;
use pair_decide::Query;
use std::alloc::Global;

/// The values of a query's sides where its variables, which are numbers of the table, have these bits, and all others 0.
pub fn sides_at(
    alloc: Global,
    aig: &Aig,
    places: &PlaceTable,
    query: &Query,
    bits: &[bool],
) -> Result<(bool, bool), NoMemory>
    requires left { query.now.left.0 < 2 * length aig.now }
    requires right { query.now.right.0 < 2 * length aig.now }
    requires each { length query.now.vars ≡ length bits.now }
    requires within { All (λ v. v < length places.now) query.now.vars }
    requires distinct { AllPairs (λ u v. u ≢ v) query.now.vars }
    ensures { IfOk result (λ sides. (sides.0 ≡ value aig.now (assigned_to query.now.vars bits.now) query.now.left.0) × (sides.1 ≡ value aig.now (assigned_to query.now.vars bits.now) query.now.right.0)) }
{
    let assignment = assignment_of(alloc, aig, places, query.vars.as_slice(), bits)?;
    let mut scratch = vec![in alloc; false; aig.size() as usize]?;
    let left = aig.value(query.left, assignment.as_slice(), scratch.as_mut_slice());
    let right = aig.value(query.right, assignment.as_slice(), scratch.as_mut_slice());
    Ok((left, right))
}

/// The bits of the graph's variables: those of a query have these, all others 0.
fn assignment_of(
    alloc: Global,
    aig: &Aig,
    places: &PlaceTable,
    vars: &[u32],
    bits: &[bool],
) -> Result<Vec<bool>, NoMemory>
    requires each { length vars.now ≡ length bits.now }
    requires within { All (λ v. v < length places.now) vars.now }
    requires distinct { AllPairs (λ u v. u ≢ v) vars.now }
    ensures covers { IfOk result (λ made. vars_of aig.now ≤ length made.items) }
    ensures bits { IfOk result (λ made. (v : ℕ) → slice_index_or made.items v false ≡ assigned_to vars.now bits.now v) }
{
    let size = aig.vars().max(places.len());
    bits_at(alloc, size as usize, vars, bits)
}
