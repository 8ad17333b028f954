//! All that is asked of pairs in the event form, under an assumption.

ghost use Rattle.std.specs.Prelude.{◌≡◌, ℕ, ◌^◌, ◌≤◌, Bool, true, List, length, All, Err, IfOk};
ghost use Rattle.flat_net.specs.View.{NetView};
ghost use Rattle.base_tables.specs.Table.{AreDistinct};
ghost use Rattle.event_nodes.specs.View.{EventCircuitView};
ghost use Rattle.edbf_unfold.specs.class_queries.Enables.{both_of};
ghost use Rattle.edbf_unfold.specs.class_queries.Laws.{AreKept};
ghost use Rattle.sec_setup.specs.declared.ports.pairs.SignalPair.{SignalPair};
ghost use Rattle.event_form.specs.Asked.{AreAsked};
ghost use Rattle.assume_laws.specs.Assume.{IsAssumption};
ghost use Rattle.assume_laws.specs.assume_shape.Shape.{assumption_of};
ghost use Rattle.assume_queries.specs.assume_functions.Functions.{IsOwnFunction};
ghost use Rattle.assume_queries.specs.Parted.{Weighs};
ghost use Rattle.assume_queries.specs.declared.map.UnderError.TheVariants as under_error;
ghost use Rattle.event_under.specs.Asked.{AreAskedUnder};
ghost use Rattle.event_under.specs.Places.{IsOverAtNodes, IsLightAtNodes};
ghost use Rattle.event_nodes.specs.event_variables.ranked_nodes.Ranks.{AreRanked};
ghost use Rattle.event_under.specs.event_asked_under.Questions.{IsOneOver, named_at};

use crate::event_asked_under::places::ranked_places;
use crate::event_asked_under::sides::with_sides;
use aig::Aig;
use aig::graph_copy::graph_clone::{GraphCopy, copy_graph};
use assume_queries::assume_answers::VariableOrder;
use assume_queries::{OwnFunction, UnderError, asked_under};
use base_tables::PlaceTable;
use event_nodes::EventGraph;
use event_nodes::event_variables::ranked_nodes::{RankedNodes, ranks_of};
use obligations::Obligation;
use std::alloc::Global;

/// What is asked of pairs under an assumption.
pub struct EventQuestions {
    pub aig: Aig,
    /// The variables: inputs, each at the event node with this place in the order of nodes.
    pub places: PlaceTable,
    pub ranked: RankedNodes,
    pub asked: Vec<Obligation>,
}

/// It is let go by one call: an owner isn't taken apart field by field at each way out.
impl Drop for EventQuestions {
    fn drop(self) {
        let EventQuestions {
            aig: _,
            places: _,
            ranked: _,
            asked: _,
        } = self;
    }
}

/// The largest graph, and the largest table, over which an assumption is asked.
const MOST: u32 = 268_435_456;

/// What is asked, each query under the assumption with this function and weight. `TooLarge` comes where the assumption weighs more than
/// 2,000,000 at all event nodes that have a variable of some query, with one more for each such node of each query. `NoMemory` comes also where
/// the event graph has more than 2^28 nodes or variables.
pub fn ask_under(
    alloc: Global,
    events: &EventGraph,
    own: &OwnFunction,
    weight: u32,
    asked: &[Obligation],
) -> Result<EventQuestions, UnderError>
    requires own { Weighs own.now weight }
    requires asked { All (IsOneOver events.now) asked.now }
    ensures under { IfOk result (λ x. (n : NetView) (inputs : List ℕ) (s size : ℕ) → IsOwnFunction n inputs s own.now → IsAssumption (assumption_of n inputs s) size → (a b : EventCircuitView) (cut : Bool) (pairs : List SignalPair) → AreKept a b events.now → AreAsked (both_of a b) events.now cut pairs asked.now → AreAskedUnder (assumption_of n inputs s) (both_of a b) events.now x.aig (named_at events.now.children x) cut pairs asked.now x.asked.items) }
    ensures distinct { IfOk result (λ x. AreDistinct (named_at events.now.children x)) }
    ensures ranked { IfOk result (λ x. AreRanked events.now.children x.ranked) }
    ensures light { IfOk result (λ x. (a b : EventCircuitView) (cut : Bool) (pairs : List SignalPair) → AreKept a b events.now → AreAsked (both_of a b) events.now cut pairs asked.now → IsLightAtNodes weight (both_of a b) pairs) }
    ensures over { result ≡ Err under_error.TooLarge → (a b : EventCircuitView) (cut : Bool) (pairs : List SignalPair) → AreKept a b events.now → AreAsked (both_of a b) events.now cut pairs asked.now → IsOverAtNodes weight (both_of a b) pairs }
{
    events.keeps();
    let ranked = ranks_of(alloc, events)?;
    let places = ranked_places(alloc, events, ranked.ranks.as_slice())?;
    let copy = copy_graph(alloc, events.aig())?;
    let GraphCopy { aig, lits } = copy;
    let mut questions = EventQuestions {
        aig,
        places,
        ranked,
        asked: Vec::new(alloc),
    };
    if !is_small(&questions.aig, &questions.places) {
        return Err(UnderError::NoMemory);
    }
    let under = asked_under(
        alloc,
        VariableOrder::Cycles,
        own,
        weight,
        &mut questions.aig,
        &mut questions.places,
        asked,
    )?;
    let made = with_sides(
        alloc,
        &mut questions.aig,
        lits.as_slice(),
        asked,
        under.as_slice(),
    )?;
    questions.asked = made;
    questions.aig.keeps();
    questions.places.keeps();
    Ok(questions)
}

/// Whether an assumption can be asked over the graph and the table.
fn is_small(aig: &Aig, places: &PlaceTable) -> bool
    ensures nodes { result ≡ true → length aig.now ≤ 2 ^ 28 }
    ensures entries { result ≡ true → length places.now ≤ 2 ^ 28 }
{
    aig.size() <= MOST && places.len() <= MOST
}
