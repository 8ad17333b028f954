//! Queries that a simulation tells apart.

ghost use Rattle.std.specs.Prelude.{◌≡◌, ◌*◌, ◌/◌, ◌%◌, ◌<◌, ◌==◌, Bool, [], length, slice_index_or, IfSome};
ghost use Rattle.swept_queries.specs.sweep.lane_eval.Blocks.{block_bit, turned};
ghost use Rattle.swept_queries.specs.InStead.{AreWithin};
ghost use Rattle.swept_queries.specs.Lanes.{TellsApart, lit_lane};

use crate::sides::Sides;
use crate::sweep::{Lit, SignatureTable};

/// An assignment that meets the care and tells the sides apart, if there is one among those of the table.
pub(crate) fn lane_apart(table: &SignatureTable, sides: &Sides) -> Option<u32>
    requires { AreWithin table.now sides.now }
    ensures { IfSome result (TellsApart table.now sides.now) }
{
    if !are_told_apart(table, sides) {
        return None;
    }
    for k in 0..512u32 {
        if lane_bit(table, sides.care, k)
            && lane_bit(table, sides.left, k) != lane_bit(table, sides.right, k)
        {
            return Some(k);
        }
    }
    None
}

/// Whether one of the assignments tells the sides apart. It is quick, and no clause says so.
fn are_told_apart(table: &SignatureTable, sides: &Sides) -> bool
    requires { AreWithin table.now sides.now }
{
    let left = table.block(sides.left.node());
    let right = table.block(sides.right.node());
    let care = table.block(sides.care.node());
    // A word of ones complements one.
    let flip_sides = u64::from((sides.left.0 ^ sides.right.0) % 2).wrapping_mul(u64::MAX);
    let flip_care = u64::from(sides.care.0 % 2).wrapping_mul(u64::MAX);
    for i in 0..8 {
        if (left[i] ^ right[i] ^ flip_sides) & (care[i] ^ flip_care) != 0 {
            return true;
        }
    }
    false
}

/// The literal's value under the assignment of this number.
fn lane_bit(table: &SignatureTable, l: Lit, k: u32) -> bool
    requires literal { l.0 < 2 * length table.now }
    requires lane { k < 512 }
    ensures { result ≡ lit_lane table.now l.0 k }
{
    let block = table.block(l.node());
    let bit = (block[(k / 64) as usize] >> (k % 64)) % 2 == 1;
    if l.is_complement() { !bit } else { bit }
}
