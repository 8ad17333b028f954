//! Whether two literals of a small graph agree under all assignments: by a table, or by a search.

ghost use Rattle.std.specs.Prelude.{◌≡◌, ◌*◌, ◌<◌, ◌≤◌, length, IfOk};
ghost use Rattle.aig.specs.lane_eval.root_classes.Inputs.{inputs_of};
ghost use Rattle.swept_queries.specs.node_agreement.Answers.{IsAnswer, IsOutcome};

use crate::node_agreement::table::{ask_table, is_light};
use aig::lane_eval::root_classes::{Aig, Bits, Ids, Lit, MAX_TABLE_VARIABLES, NoMemory, variables};
use pair_decide::{Decision, Query, SameBy, decide};
use std::alloc::Global;

/// The most conflicts of a search that a table may follow.
const SHORT: u32 = 100;

/// What a proof took.
#[derive(Clone, Copy)]
pub(crate) struct Cost {
    /// The conflicts of a search.
    pub conflicts: u32,
    /// How many conflicts a table was worth.
    pub table: u32,
}

/// What came of an attempt over a small graph.
#[derive(Drop)]
pub(crate) enum Tried {
    /// They agree, and that took so much.
    Same(Cost),
    /// They differ where these variables of the small graph have these bits.
    Differs(Ids, Bits),
    /// The limit of conflicts was met.
    Limit,
    /// It wasn't tried.
    Open,
}

/// Tries to prove that two literals agree where the care holds, over all variables of the graph. Where a table of up to 24 variables takes
/// no longer than so many conflicts, it follows a short search.
pub(crate) fn ask(
    alloc: Global,
    graph: &Aig,
    left: Lit,
    right: Lit,
    care: Lit,
    conflicts: u32,
) -> Result<Tried, NoMemory>
    requires left { left.0 < 2 * length graph.now }
    requires right { right.0 < 2 * length graph.now }
    requires care { care.0 < 2 * length graph.now }
    requires conflicts { conflicts ≤ 200000 }
    ensures { IfOk result (IsAnswer graph.now left.0 right.0 care.0) }
{
    let vars = variables(alloc, graph)?;
    let light = is_light(graph.size(), vars.len(), conflicts);
    let most = conflicts.min(if light { SHORT } else { u32::MAX });
    let query = Query {
        left,
        right,
        care,
        vars,
    };
    let tried = ask_search(alloc, graph, query, most)?;
    if light && matches!(tried, Tried::Limit) {
        return ask_table(alloc, graph, left, right, care);
    }
    Ok(tried)
}

/// Tries it by a table where the variables are at most 16, and else by a search, if that may have conflicts.
fn ask_search(alloc: Global, graph: &Aig, query: Query, conflicts: u32) -> Result<Tried, NoMemory>
    requires left { query.left.0 < 2 * length graph.now }
    requires right { query.right.0 < 2 * length graph.now }
    requires care { query.care.0 < 2 * length graph.now }
    requires vars { query.vars ≡ inputs_of graph.now }
    requires conflicts { conflicts ≤ 200000 }
    ensures { IfOk result (IsAnswer graph.now query.left.0 query.right.0 query.care.0) }
{
    graph.keeps();
    if query.vars.len() > MAX_TABLE_VARIABLES && conflicts == 0 {
        return Ok(Tried::Open);
    }
    let decision = decide(alloc, graph, &query, conflicts)?;
    Ok(outcome_of(decision, query.vars))
}

fn outcome_of(decision: Decision, vars: Ids) -> Tried
    ensures { IsOutcome decision vars result }
{
    match decision {
        Decision::Same(why) => Tried::Same(spent(&why)),
        Decision::Differs(bits) => Tried::Differs(vars, bits),
        Decision::Limit(_) => Tried::Limit,
    }
}

/// What the answer took.
fn spent(why: &SameBy) -> Cost {
    let conflicts = match why {
        SameBy::Refuted(proof) => proof.log.len().min(200_000) as u32,
        _ => 0,
    };
    Cost {
        conflicts,
        table: 0,
    }
}
