//! The variables of two functions.

ghost use Rattle.std.specs.Prelude.{length, IfOk};
ghost use Rattle.event_nodes.specs.event_variables.Variables.{AreInOrder, IsMergeOf};

use crate::event_variables::node_order::variable_order;
use crate::{EventGraph, Ids, NoMemory};
use aig::{OrderedVariables, merge};
use std::alloc::Global;
use std::cmp::Ordering;

/// The variables of an event graph: longer paths first, then by path in the order of class numbers, then by input.
impl OrderedVariables for EventGraph {
    ghost use Rattle.std.specs.Prelude.{length};
    ghost use Rattle.event_nodes.specs.event_variables.Variables.{GoesBefore};

    ghost count = { λ w. length w.places };

    ghost before = { GoesBefore };

    fn order_of(&self, u: u32, v: u32) -> Ordering {
        variable_order(self, u, v)
    }
}

/// The variables that one of both lists has, in their order: longer paths first, then by path in the order of class numbers, then by
/// input. Each list is in this order.
pub fn merge_variables(
    alloc: Global,
    events: &EventGraph,
    left: &[u32],
    right: &[u32],
) -> Result<Ids, NoMemory>
    requires left { AreInOrder events.now left.now }
    requires right { AreInOrder events.now right.now }
    ensures { IfOk result (IsMergeOf events.now left.now right.now) }
{
    merge(alloc, events, left, right)
}
