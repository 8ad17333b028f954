//! The variables of two functions.

ghost use Rattle.std.specs.Prelude.{length, IfOk};
ghost use Rattle.cbf_unfold.specs.shift_variables.Variables.{AreInOrder, IsMergeOf};

use crate::unfold_places::{Ids, NoMemory, PlaceTable};
use aig::{OrderedVariables, merge};
use std::alloc::Global;
use std::cmp::Ordering;

/// The variables of a table, those of a greater shift first, and of one shift by the inputs' numbers.
#[derive(Clone, Copy)]
struct ByShift<'a> {
    places: &'a PlaceTable,
}

impl OrderedVariables for ByShift<'_> {
    ghost use Rattle.std.specs.Prelude.{length};
    ghost use Rattle.cbf_unfold.specs.shift_variables.Variables.{GoesBefore};

    ghost count = { λ s. length s.places.now };

    ghost before = { λ s. GoesBefore s.places.now };

    fn order_of(&self, u: u32, v: u32) -> Ordering {
        self.places.keeps();
        let (left_input, left_shift) = self.places.pair(u);
        let (right_input, right_shift) = self.places.pair(v);
        if left_shift != right_shift {
            return right_shift.cmp(&left_shift);
        }
        left_input.cmp(&right_input)
    }
}

/// The variables that one of both lists has, those of a greater shift first, and of one shift by the inputs' numbers.
/// Each list is in this order.
pub fn merge_variables(
    alloc: Global,
    places: &PlaceTable,
    left: &[u32],
    right: &[u32],
) -> Result<Ids, NoMemory>
    requires left { AreInOrder places.now left.now }
    requires right { AreInOrder places.now right.now }
    ensures { IfOk result (IsMergeOf places.now left.now right.now) }
{
    merge(alloc, &ByShift { places }, left, right)
}
