//! The whole decision.

ghost use Rattle.std.specs.Prelude.{◌≤◌, ◌↔◌, IfOk, IsTrue};
ghost use Rattle.pair_decide.specs.Queries.{IsQuery, IsTrivial};
ghost use Rattle.pair_decide.specs.Answers.{Decides};

use crate::cnf_encode::{MAX_CONFLICTS, NoMemory};
use crate::query::{Decision, Query, SameBy};
use crate::search::decide_by_search;
use crate::table::decide_by_table;
use aig::MAX_TABLE_VARIABLES;
use aig::lane_eval::{Aig, Lit};
use std::alloc::Global;

/// Decides the query. It is `Same(Literal)` where both sides are one literal or the care is the literal 0. Otherwise all
/// assignments of at most 16 variables are tried; above that the search may log at most so many chains.
pub fn decide(alloc: Global, aig: &Aig, query: &Query, conflicts: u32) -> Result<Decision, NoMemory>
    requires query { IsQuery aig.now query.now }
    requires conflicts { conflicts ≤ MAX_CONFLICTS }
    ensures { IfOk result (Decides aig.now query.now conflicts) }
{
    if is_trivial(query) {
        aig.keeps();
        return Ok(Decision::Same(SameBy::Literal));
    }
    if query.vars.len() <= MAX_TABLE_VARIABLES {
        return decide_by_table(alloc, aig, query);
    }
    decide_by_search(alloc, aig, query, conflicts)
}

/// Whether both sides are one literal, or the care is the literal 0.
fn is_trivial(query: &Query) -> bool
    ensures { IsTrue result ↔ IsTrivial query.now }
{
    query.left == query.right || query.care == Lit::FALSE
}
