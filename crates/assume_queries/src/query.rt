//! One query under an assumption.

ghost use Rattle.std.specs.Prelude.{◌+◌, ◌*◌, ◌^◌, ◌<◌, ◌≤◌, length, All, IfOk, OnOk};
ghost use Rattle.aig.specs.Graph.{Grows};
ghost use Rattle.assume_queries.specs.assume_answers.Order.{AreOrdered};
ghost use Rattle.assume_queries.specs.Parts.{variables_at};
ghost use Rattle.assume_queries.specs.Made.{IsMadeOf};

use crate::assume_answers::VariableOrder;
use crate::care::conjunction;
use crate::order::merged;
use crate::parts::{literals, variables};
use aig::Aig;
use base_tables::PlaceTable;
use cbf_unfold::unfold_places::Unfolded;
use pair_decide::Query;
use sec_base::NoMemory;
use std::alloc::Global;

/// The query with the functions of these numbers as its care, and their variables among its own. After `NoMemory` the graph may have
/// grown.
pub(crate) fn query_under(
    alloc: Global,
    order: VariableOrder,
    aig: &mut Aig,
    table: &PlaceTable,
    query: &Query,
    own: &[u32],
    functions: &[Unfolded],
) -> Result<Query, NoMemory>
    requires within { All (λ n. n < length functions.now) own.now }
    requires literals { All (λ u. u.lit.0 < 2 * length aig.old) functions.now }
    requires room { length aig.old + length own.now < 2 ^ 30 }
    requires sides { AreOrdered order table.now query.now.vars }
    requires read { AreOrdered order table.now (variables_at functions.now own.now) }
    ensures made { IfOk result (IsMadeOf order table.now aig.old functions.now query.now own.now aig.new) }
    ensures grows { OnOk result (Grows aig.old aig.new) }
    ensures few { OnOk result (length aig.new ≤ length aig.old + length own.now) }
{
    let lits = literals(alloc, own, functions)?;
    let read = variables(alloc, own, functions)?;
    let care = conjunction(aig, lits.as_slice())?;
    let vars = merged(alloc, order, table, query.vars.as_slice(), read.as_slice())?;
    Ok(Query {
        left: query.left,
        right: query.right,
        care,
        vars,
    })
}
