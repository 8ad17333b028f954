//! The enabled latches of two circuits in the order in which they join classes.

ghost use Rattle.std.specs.Prelude.{IfOk, All};
ghost use Rattle.circuit_theory.specs.Depth.{LatchesHaveDepths};
ghost use Rattle.flat_net.specs.View.{circuit_of};
ghost use Rattle.event_nodes.specs.View.{Enabled};
ghost use Rattle.class_search.specs.event_order.Order.{IsTagOf, IsTagOrder};

use crate::event_order::latch_order;
use event_nodes::EventCircuit;
use sec_base::{NoMemory, Tag};
use std::alloc::Global;

/// The enabled latches of both circuits, by depth, then those of the first circuit before those of the second, then by position.
pub fn latches_in_order(
    alloc: Global,
    left: &EventCircuit,
    right: &EventCircuit,
) -> Result<Vec<Tag>, NoMemory>
    requires left { LatchesHaveDepths (circuit_of left.now.net) (Enabled left.now) }
    requires right { LatchesHaveDepths (circuit_of right.now.net) (Enabled right.now) }
    ensures named { IfOk result (λ tags. All (IsTagOf left.now.net right.now.net) tags.items) }
    ensures order { IfOk result (λ tags. IsTagOrder left.now.net right.now.net tags.items) }
{
    left.keeps();
    right.keeps();
    latch_order(
        alloc,
        left.net(),
        left.enabled(),
        right.net(),
        right.enabled(),
    )
}
