//! Cycles that are left without all common latches.

ghost use Rattle.std.specs.Prelude.{◌≡◌, ◌<◌, false, All, length, IfOk, IfSome, IfNone};
ghost use Rattle.latch_graph.specs.minimal_cut.Chosen.{IsFree};
ghost use Rattle.sec_setup.specs.cut_points.expose_pick.Pairs.{IsLeft};
ghost use Rattle.sec_setup.specs.cut_points.expose_pick.Bits.{AreBits};

use latch_graph::{Bits, Ids, LatchGraph, NoMemory, Seq};
use std::alloc::Global;

/// A cycle that is left without the latches at these positions, if there is one.
pub(crate) fn cycle_left(
    alloc: Global,
    graph: &LatchGraph,
    positions: &[u32],
) -> Result<Option<Ids>, NoMemory>
    requires { All (λ j. j < length graph.now.latches) positions.now }
    ensures none { IfOk result (λ found. IfNone found (IsFree graph.now positions.now)) }
    ensures some { IfOk result (λ found. IfSome found (IsLeft graph.now positions.now)) }
{
    let removed = bits_at(alloc, graph.latches().len(), positions)?;
    let found = graph.cycle(alloc, &removed)?;
    Ok(found)
}

/// So many bits, of which those at these positions are set.
fn bits_at(alloc: Global, count: usize, positions: &[u32]) -> Result<Bits, NoMemory>
    requires { All (λ j. j < count) positions.now }
    ensures size { IfOk result (λ bits. length bits ≡ count) }
    ensures set { IfOk result (λ bits. AreBits bits positions.now (length positions.now)) }
{
    let mut bits = vec![in alloc; false; count]?;
    set_all(positions, bits.as_mut_slice());
    Ok(Seq::from_vec(bits))
}

fn set_all(positions: &[u32], bits: &mut [bool])
    requires within { All (λ j. j < length bits.old) positions.now }
    requires none { All (λ bit. bit ≡ false) bits.old }
    ensures { AreBits bits.new positions.now (length positions.now) }
{
    for i in 0..positions.len() {
        let position = positions[i] as usize;
        bits[position] = true;
    }
}
