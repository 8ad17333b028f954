//! The search for two literals that no sweep made one.

ghost use Rattle.std.specs.Prelude.{◌≡◌, ◌*◌, ◌<◌, ◌≤◌, length, IfOk};
ghost use Rattle.swept_queries.specs.node_agreement.Agreeing.{Agree};

use aig::lane_eval::root_classes::variables;
use aig::{Aig, Lit, MAX_CONFLICTS, NoMemory};
use std::alloc::Global;
use swept_queries::node_agreement::{Decision, Model, Query, decide};

/// What is found of two literals.
#[derive(Drop)]
pub(crate) enum Found {
    /// They agree under every assignment.
    Agree,
    /// This tells them apart. No clause says so.
    Apart(Model),
    /// Neither was found.
    Open,
}

/// What is found of two literals of the graph, with at most so many conflicts.
pub(crate) fn agree(
    alloc: Global,
    graph: &Aig,
    x: Lit,
    y: Lit,
    conflicts: u32,
) -> Result<Found, NoMemory>
    requires x { x.0 < 2 * length graph.now }
    requires y { y.0 < 2 * length graph.now }
    requires conflicts { conflicts ≤ MAX_CONFLICTS }
    ensures { IfOk result (λ found. found ≡ Found.Agree → Agree graph.now x.0 y.0) }
{
    graph.keeps();
    let vars = variables(alloc, graph)?;
    let query = Query {
        left: x,
        right: y,
        care: Lit::TRUE,
        vars,
    };
    let decision = decide(alloc, graph, &query, conflicts)?;
    let Query {
        left: _,
        right: _,
        care: _,
        vars,
    } = query;
    match decision {
        Decision::Same(_) => Ok(Found::Agree),
        Decision::Differs(bits) => Ok(Found::Apart(Model {
            vars: vars.into_vec(),
            bits: bits.into_vec(),
        })),
        Decision::Limit(_) => Ok(Found::Open),
    }
}
