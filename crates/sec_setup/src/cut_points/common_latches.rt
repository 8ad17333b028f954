//! The latches that two circuits have under one name.

ghost use Rattle.std.specs.Prelude.{IfOk};
ghost use Rattle.sec_setup.specs.cut_points.Common.{AreCommon};

use crate::cut_points::expose_pick::{LatchPair, LatchPairs};
use latch_graph::{Net, NoMemory};
use std::alloc::Global;

/// The latches that both circuits have under one name, in A's order.
pub(crate) fn common_pairs(alloc: Global, a: &Net, b: &Net) -> Result<LatchPairs, NoMemory>
    ensures { IfOk result (AreCommon a.now b.now) }
{
    a.keeps();
    let latches = a.latches();
    let mut pairs = LatchPairs::new(alloc);
    for i in 0..latches.len() {
        let Some(right) = b.latch_named(latches[i].name.as_slice()) else {
            continue;
        };
        let left = i as u32;
        pairs.push(LatchPair { left, right })?;
    }
    Ok(pairs)
}
