//! The class map of two circuits, and their event functions over it.

ghost use Rattle.std.specs.Prelude.{◌≡◌, ◌≤◌, length, All, IfOk};
ghost use Rattle.circuit_theory.specs.Depth.{LatchesHaveDepths};
ghost use Rattle.flat_net.specs.View.{circuit_of};
ghost use Rattle.event_classes.specs.Refused.{IsRefusedMap};
ghost use Rattle.event_nodes.specs.View.{Enabled};
ghost use Rattle.event_form.specs.event_agreement.pair_events.View.{IsEvents};
ghost use Rattle.event_form.specs.event_findings.unshown_pairs.class_events.Made.{events_in, AreEnablesCounted};
ghost use Rattle.event_form.specs.event_findings.unshown_pairs.class_events.Separated.{AreSeparated};

use crate::event_agreement::pair_events::Events;
use event_classes::{Apart, ClassMap, EventCircuit, EventError, make_classes};
use sec_base::MAX_CONFLICTS;
use std::alloc::Global;

/// Two circuits whose latches have their classes, and what tells each two classes apart: (0, 1), (0, 2), (1, 2), (0, 3) and so on.
#[derive(Drop)]
pub struct Separated {
    pub events: Events,
    pub aparts: Vec<Apart>,
}

/// Two circuits whose latches are all of class 0 so far, with their class map. The enabled latches are taken in their order, by depth, then those
/// of the first circuit before those of the second, then by position; each joins the first class all of whose members agree with it wherever
/// both have care, or founds the next. A query takes at most so many conflicts. The refusals come at the first latch that passes a number, or whose
/// query meets the limit; `TooManyEvents` first of all where more than 30,000 latches are enabled.
pub fn events_of(
    alloc: Global,
    left: EventCircuit,
    right: EventCircuit,
    conflicts: u32,
) -> Result<Separated, EventError>
    requires left_depths { LatchesHaveDepths (circuit_of left.net) (Enabled left) }
    requires right_depths { LatchesHaveDepths (circuit_of right.net) (Enabled right) }
    requires left_classes { All (λ k. k ≡ 0) left.classes }
    requires right_classes { All (λ k. k ≡ 0) right.classes }
    requires conflicts { conflicts ≤ MAX_CONFLICTS }
    ensures left { IfOk result (λ r. r.events.left ≡ record left { classes = r.events.left.classes }) }
    ensures right { IfOk result (λ r. r.events.right ≡ record right { classes = r.events.right.classes }) }
    ensures counted { IfOk result (λ r. AreEnablesCounted r.events) }
    ensures separated { IfOk result (λ r. AreSeparated r.events r.aparts.items) }
    ensures refused { IsRefusedMap left right conflicts result }
{
    let map = make_classes(alloc, left, right, conflicts)?;
    map.left.keeps();
    map.right.keeps();
    Ok(of_map(map))
}

/// A class map that is made, as two circuits whose signals can be unfolded, with what tells each two classes apart.
pub fn of_map(map: ClassMap) -> Separated
    requires made { IsEvents (events_in map) }
    requires few { length map.classes.items ≤ 500 }
    ensures events { result.events ≡ events_in map }
    ensures aparts { result.aparts ≡ map.aparts }
{
    let ClassMap {
        left,
        right,
        events,
        left_count,
        right_count,
        table: _,
        classes,
        aparts,
        taken: _,
    } = map;
    let count = classes.len() as u32;
    Separated {
        events: Events::new(left, right, events, left_count, right_count, count),
        aparts,
    }
}
