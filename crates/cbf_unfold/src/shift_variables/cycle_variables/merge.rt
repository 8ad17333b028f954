//! The variables of two functions.

ghost use Rattle.std.specs.Prelude.{length, IfOk};
ghost use Rattle.cbf_unfold.specs.shift_variables.cycle_variables.Cycles.{AreInCycles, IsCycleMerge};

use aig::{OrderedVariables, merge};
use base_tables::PlaceTable;
use sec_base::{Ids, NoMemory};
use std::alloc::Global;
use std::cmp::Ordering;

/// The variables of a table, those of a lesser cycle first, and of one cycle by their numbers.
#[derive(Clone, Copy)]
struct ByCycle<'a> {
    places: &'a PlaceTable,
}

impl OrderedVariables for ByCycle<'_> {
    ghost use Rattle.std.specs.Prelude.{length};
    ghost use Rattle.cbf_unfold.specs.shift_variables.cycle_variables.Cycles.{GoesFirst};

    ghost count = { λ s. length s.places.now };

    ghost before = { λ s. GoesFirst s.places.now };

    fn order_of(&self, u: u32, v: u32) -> Ordering {
        self.places.keeps();
        let (left_number, left_cycle) = self.places.pair(u);
        let (right_number, right_cycle) = self.places.pair(v);
        if left_cycle != right_cycle {
            return left_cycle.cmp(&right_cycle);
        }
        left_number.cmp(&right_number)
    }
}

/// The variables that one of both lists has, those of a lesser cycle first, and of one cycle by their numbers. Each list is in
/// this order.
pub fn merge_cycles(
    alloc: Global,
    places: &PlaceTable,
    left: &[u32],
    right: &[u32],
) -> Result<Ids, NoMemory>
    requires left { AreInCycles places.now left.now }
    requires right { AreInCycles places.now right.now }
    ensures { IfOk result (IsCycleMerge places.now left.now right.now) }
{
    merge(alloc, &ByCycle { places }, left, right)
}
