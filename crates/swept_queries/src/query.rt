//! One query over the swept graph.

ghost use Rattle.std.specs.Prelude.{◌≡◌, ℕ, List, Contains, slice_get, IfOk, IfSome, IsTrue};
ghost use Rattle.swept_queries.specs.sweep.aig.Node.{Node};
ghost use Rattle.swept_queries.specs.sweep.aig.Node.TheVariants.{Input};
ghost use Rattle.swept_queries.specs.sweep.pair_decide.Queries.{IsQuery};
ghost use Rattle.swept_queries.specs.InStead.{AreWithin, sides_of, ReadsOnly, StandFor, IsInStead};

use crate::sides::Sides;
use crate::sweep::{Aig, Ids, NoMemory, Node, Query};
use std::alloc::Global;

/// The query with these literals of the graph in the place of its own, if their cones read no variable but the query's.
pub(crate) fn query_in_stead(
    alloc: Global,
    aig: &Aig,
    sides: &Sides,
    query: &Query,
) -> Result<Option<Query>, NoMemory>
    requires { AreWithin aig.now sides.now }
    ensures { IfOk result (λ asked. IfSome asked (λ q. (g : List Node) → IsQuery g query.now → StandFor g (sides_of query.now) aig.now sides.now → IsInStead g query.now aig.now q)) }
{
    aig.keeps();
    if !reads_only(alloc, aig, sides, &query.vars)? {
        return Ok(None);
    }
    let vars = query.vars.copy()?;
    Ok(Some(Query {
        left: sides.left,
        right: sides.right,
        care: sides.care,
        vars,
    }))
}

/// Whether the cones of the three literals read no variable but these.
fn reads_only(alloc: Global, aig: &Aig, sides: &Sides, vars: &Ids) -> Result<bool, NoMemory>
    requires { AreWithin aig.now sides.now }
    ensures { IfOk result (λ only. IsTrue only → ReadsOnly aig.now sides.now vars.now) }
{
    let mut own = Vec::from_slice(alloc, vars.as_slice())?;
    own.sort()?;
    let cone = aig.cone(alloc, &[sides.left, sides.right, sides.care])?;
    Ok(has_all(aig, cone.as_slice(), own.as_slice()))
}

/// Whether the variable of each of these nodes that is one's is in the list.
fn has_all(aig: &Aig, nodes: &[u32], vars: &[u32]) -> bool
    ensures { IsTrue result → (n v : ℕ) → Contains nodes.now n → slice_get aig.now n ≡ Some (Input v) → Contains vars.now v }
{
    for i in 0..nodes.len() {
        if !has(aig, nodes[i], vars) {
            return false;
        }
    }
    true
}

/// Whether the node is there and its variable, if it has one, is in the list.
fn has(aig: &Aig, n: u32, vars: &[u32]) -> bool
    ensures { IsTrue result → (v : ℕ) → slice_get aig.now n ≡ Some (Input v) → Contains vars.now v }
{
    if n >= aig.size() {
        return false;
    }
    match aig.node(n) {
        Node::Input(v) => is_among(vars, v),
        _ => true,
    }
}

/// Whether the number is found in the list, which is increasing.
fn is_among(numbers: &[u32], number: u32) -> bool
    ensures { IsTrue result → Contains numbers.now number }
{
    match numbers.binary_search(&number) {
        Ok(p) => p < numbers.len() && numbers[p] == number,
        Err(_) => false,
    }
}
