//! The values and the variables of a difference.

ghost use Rattle.std.specs.Prelude.{◌≡◌, ◌<◌, ◌≤◌, length, All, IfOk};
ghost use Rattle.pair_decide.specs.Queries.{IsQuery};
ghost use Rattle.event_under.specs.event_under_form.event_witness_under.Ready.{IsReadyAt, IsReadyOf, IsShowableUnder};

use crate::event_asked_under::EventQuestions;
use crate::event_shown_under::{NodeVariables, node_variables};
use crate::event_under_form::event_witness_under::sides::sides_of;
use event_nodes::EventGraph;
use obligations::outcome::PairName;
use obligations::{Difference, copy_name};
use pair_decide::Query;
use sec_base::{Bits, NoMemory};
use std::alloc::Global;

/// A difference with its values, and the variables of its query at event nodes.
#[derive(Drop)]
pub struct ReadyDifference {
    pub pair: PairName,
    /// The value in the first circuit.
    pub left: bool,
    /// The value in the second circuit.
    pub right: bool,
    pub made: NodeVariables,
}

/// The values and the variables of a difference, where the event graph is that over which was asked.
pub fn ready_at(
    alloc: Global,
    events: &EventGraph,
    questions: &EventQuestions,
    difference: &Difference,
) -> Result<ReadyDifference, NoMemory>
    requires { IsShowableUnder events.now questions.now difference.now }
    ensures { IfOk result (IsReadyAt events.now questions.now difference.now) }
{
    let obligation = &questions.asked[difference.pair];
    let query = &obligation.queries.as_slice()[difference.query];
    ready_of(
        alloc,
        events,
        questions,
        query,
        &difference.bits,
        &obligation.name,
    )
}

/// Those of a query under these bits of its variables.
fn ready_of(
    alloc: Global,
    events: &EventGraph,
    questions: &EventQuestions,
    query: &Query,
    bits: &Bits,
    name: &PairName,
) -> Result<ReadyDifference, NoMemory>
    requires query { IsQuery questions.now.aig query.now }
    requires within { All (λ v. v < length questions.now.places) query.now.vars }
    requires each { length bits.now ≡ length query.now.vars }
    requires nodes { All (λ n. n ≤ length events.now.children) questions.now.ranked.nodes }
    ensures { IfOk result (IsReadyOf events.now questions.now query.now bits.now name.now) }
{
    let sides = sides_of(alloc, &questions.aig, query, bits.as_slice())?;
    let nodes = questions.ranked.nodes.as_slice();
    let vars = query.vars.as_slice();
    let made = node_variables(alloc, events, nodes, &questions.places, vars)?;
    let pair = copy_name(name)?;
    Ok(ReadyDifference {
        pair,
        left: sides.0,
        right: sides.1,
        made,
    })
}
