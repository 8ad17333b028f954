//! The cone of a latch.

ghost use Rattle.std.specs.Prelude.{◌<◌, length, IfOk};
ghost use Rattle.latch_kinds.specs.unate_enable.Cones.{IsConeOfLatch};

use crate::unate_enable::reached_signals::reached;
use crate::unate_enable::sources::cone_among;
use flat_net::{Net, latch_of};
use sec_base::{Ids, NoMemory};
use std::alloc::Global;

/// Inputs and latches of a net, by their positions, increasing.
#[derive(Drop)]
pub struct LatchCone {
    pub inputs: Ids,
    pub latches: Ids,
}

/// The inputs and latches that are reached from what the latch takes over backwards through gates, the latch itself left out.
/// It looks at no other signals.
pub fn cone(alloc: Global, net: &Net, latch: u32) -> Result<LatchCone, NoMemory>
    requires { latch < length net.now.latches }
    ensures { IfOk result (IsConeOfLatch net.now latch) }
{
    net.keeps();
    let signals = reached(alloc, net, latch_of(net, latch).next)?;
    cone_among(alloc, net, latch, signals.as_slice())
}
