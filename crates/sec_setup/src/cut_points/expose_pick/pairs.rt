//! Pairs of latches.

ghost use Rattle.std.specs.Prelude.{◌≡◌, IfOk};
ghost use Rattle.sec_setup.specs.cut_points.expose_pick.Pairs.{lefts, rights};

use latch_graph::{Duplicate, NoMemory, Seq};
use std::alloc::Global;

/// A latch of the first circuit and one of the second, by their positions there.
#[derive(Clone, Copy)]
pub struct LatchPair {
    pub left: u32,
    pub right: u32,
}

/// Pairs of latches.
pub type LatchPairs = Seq<LatchPair>;

impl Duplicate for LatchPair {
    fn duplicate(&self, _alloc: Global) -> Result<LatchPair, NoMemory> {
        Ok(*self)
    }
}

/// The positions in the first circuit.
pub(crate) fn lefts_of(alloc: Global, common: &[LatchPair]) -> Result<Vec<u32>, NoMemory>
    ensures { IfOk result (λ made. made.items ≡ lefts common.now) }
{
    let mut made = Vec::with_capacity(alloc, common.len())?;
    for pair in common {
        made.push(pair.left)?;
    }
    Ok(made)
}

/// The positions in the second circuit.
pub(crate) fn rights_of(alloc: Global, common: &[LatchPair]) -> Result<Vec<u32>, NoMemory>
    ensures { IfOk result (λ made. made.items ≡ rights common.now) }
{
    let mut made = Vec::with_capacity(alloc, common.len())?;
    for pair in common {
        made.push(pair.right)?;
    }
    Ok(made)
}
