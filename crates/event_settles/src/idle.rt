//! Classes whose loads can't happen.

ghost use Rattle.std.specs.Prelude.{◌<◌, ◌≤◌, length, IfOk};
ghost use Rattle.class_search.specs.Comparing.{IsReadyEnable};
ghost use Rattle.event_form.specs.event_agreement.pair_events.View.{circuit_at, side_of_both};
ghost use Rattle.event_form.specs.event_findings.unshown_pairs.class_events.Separated.{AreSeparated};
ghost use Rattle.event_settles.specs.Idle.{IdleIs, IsNamedAs, LatchIs, SignalIs, signal_of};

use crate::cares::{Care, IdleLatch};
use crate::deciding::care_met;
use aig::Lit;
use event_classes::Apart;
use event_classes::event_functions::{SignalFunction, unfold_signal};
use event_form::Events;
use event_form::event_findings::unshown_pairs::class_events::apart_at;
use event_nodes::{Counter, EventGraph, EventUnfoldError};
use obligations::outcome::Query;
use sec_base::{MAX_CONFLICTS, NoMemory, Tag};
use std::alloc::Global;

/// The first latch of the first class besides `always` whose loads can't happen, where one is known. Each class is asked about with at most so many
/// conflicts, by the event function of its first latch alone.
pub(crate) fn first_idle(
    alloc: Global,
    events: &Events,
    aparts: &[Apart],
    conflicts: u32,
) -> Result<Option<IdleLatch>, NoMemory>
    requires separated { AreSeparated events.now aparts.now }
    requires conflicts { conflicts ≤ MAX_CONFLICTS }
    ensures { IfOk result (IdleIs (side_of_both events.now) conflicts) }
{
    events.keeps();
    for class in 0..events.classes() {
        let tag = apart_at(events, aparts, 0, class + 1).high;
        if is_idle(alloc, events, tag, conflicts)? {
            let latch = named_idle(events, tag)?;
            return Ok(Some(latch));
        }
    }
    Ok(None)
}

/// The latch of the tag, by its circuit and its name.
fn named_idle(events: &Events, tag: Tag) -> Result<IdleLatch, NoMemory>
    requires latch { tag.latch < length (circuit_at tag.side events.now).net.latches }
    ensures { IfOk result (IsNamedAs events.now tag) }
{
    let net = events.circuit(tag.side).net();
    let name = net.latches()[tag.latch as usize].name.copy()?;
    Ok(IdleLatch {
        side: tag.side,
        name,
    })
}

/// Whether no frame has care for the latch. Where that isn't known, it isn't said.
fn is_idle(alloc: Global, events: &Events, tag: Tag, conflicts: u32) -> Result<bool, NoMemory>
    requires latch { tag.latch < length (circuit_at tag.side events.now).net.latches }
    requires conflicts { conflicts ≤ MAX_CONFLICTS }
    ensures { IfOk result (LatchIs (side_of_both events.now) conflicts (signal_of events.now tag)) }
{
    events.keeps();
    let circuit = events.circuit(tag.side);
    circuit.keeps();
    let out = circuit.net().latches()[tag.latch as usize].out;
    let mut graph = EventGraph::new(alloc)?;
    graph.keeps();
    let mut count = Counter::new(alloc);
    match unfold_signal(alloc, circuit, &mut graph, &mut count, out) {
        Ok(function) => {
            graph.keeps();
            is_never(alloc, &graph, function, conflicts)
        }
        Err(error) => {
            graph.keeps();
            match error {
                EventUnfoldError::NoMemory => Err(NoMemory),
                _ => Ok(false),
            }
        }
    }
}

/// Whether no frame has care for the signal of this function.
fn is_never(
    alloc: Global,
    graph: &EventGraph,
    function: SignalFunction,
    conflicts: u32,
) -> Result<bool, NoMemory>
    requires ready { IsReadyEnable graph.now (record { value = function.value; care = function.care; vars = function.vars }) }
    requires conflicts { conflicts ≤ MAX_CONFLICTS }
    ensures { IfOk result (SignalIs graph.now conflicts function) }
{
    graph.keeps();
    let SignalFunction {
        value,
        care,
        vars,
        nodes: _,
        only_always: _,
    } = function;
    let query = Query {
        left: value,
        right: Lit::TRUE,
        care,
        vars,
    };
    match care_met(alloc, graph.aig(), &query, conflicts)? {
        Care::Never(_) => Ok(true),
        _ => Ok(false),
    }
}
