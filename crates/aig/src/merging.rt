//! The variables of two functions, in their order, as one list.

ghost use Rattle.std.specs.Prelude.{ℕ, ◌<◌, IfOk};
ghost use Rattle.aig.specs.Merged.{GoesOn, StandsBy, AreOrdered, IsMergeBy};

use sec_base::{Ids, NoMemory, Seq};
use std::alloc::Global;
use std::cmp::Ordering;

/// Variables by their numbers, in an order.
pub trait OrderedVariables {
    /// How many there are.
    ghost count: { Self → ℕ };

    /// The first number's variable goes before the second's.
    ghost before: { Self → ℕ → ℕ → Type 0 };

    /// Which of two variables goes first.
    fn order_of(&self, u: u32, v: u32) -> Ordering
        requires left { u < count self.now }
        requires right { v < count self.now }
        ensures { StandsBy (before self.now) u v result };
}

/// The variables that one of both lists has, in their order. Each list is in this order.
pub fn merge<T: OrderedVariables>(
    alloc: Global,
    variables: &T,
    left: &[u32],
    right: &[u32],
) -> Result<Ids, NoMemory>
    requires goes_on { GoesOn (T.before variables.now) }
    requires left { AreOrdered (T.count variables.now) (T.before variables.now) left.now }
    requires right { AreOrdered (T.count variables.now) (T.before variables.now) right.now }
    ensures { IfOk result (IsMergeBy (T.before variables.now) left.now right.now) }
{
    let mut merged = Vec::new(alloc);
    let mut i = 0;
    let mut j = 0;
    while i < left.len() && j < right.len() {
        let (next, from_left, from_right) = match variables.order_of(left[i], right[j]) {
            Ordering::Less => (left[i], i + 1, j),
            Ordering::Equal => (left[i], i + 1, j + 1),
            Ordering::Greater => (right[j], i, j + 1),
        };
        merged.push(next)?;
        i = from_left;
        j = from_right;
    }
    merged.extend_from_slice(&left[i..])?;
    merged.extend_from_slice(&right[j..])?;
    Ok(Seq::from_vec(merged))
}
