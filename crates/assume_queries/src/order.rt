//! Two lists of variables in one order as one list.

ghost use Rattle.std.specs.Prelude.{IfOk};
ghost use Rattle.assume_queries.specs.assume_answers.Order.{AreOrdered, IsOrderedMerge};

use crate::assume_answers::VariableOrder;
use base_tables::PlaceTable;
use cbf_unfold::shift_variables::cycle_variables::merge_cycles;
use cbf_unfold::shift_variables::merge_variables;
use sec_base::{Ids, NoMemory};
use std::alloc::Global;

/// The variables that one of both lists has, in this order. Each list is in it.
pub(crate) fn merged(
    alloc: Global,
    order: VariableOrder,
    table: &PlaceTable,
    left: &[u32],
    right: &[u32],
) -> Result<Ids, NoMemory>
    requires left { AreOrdered order table.now left.now }
    requires right { AreOrdered order table.now right.now }
    ensures { IfOk result (IsOrderedMerge order table.now left.now right.now) }
{
    match order {
        VariableOrder::Shifts => merge_variables(alloc, table, left, right),
        VariableOrder::Cycles => merge_cycles(alloc, table, left, right),
    }
}
