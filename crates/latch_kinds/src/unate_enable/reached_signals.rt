//! The signals that a signal is reached from.

ghost use Rattle.std.specs.Prelude.{◌<◌, length, IfOk};
ghost use Rattle.flat_net.specs.View.{circuit_of};
ghost use Rattle.latch_kinds.specs.unate_enable.Walks.{AreReached};

use flat_net::{Net, Signal};
use sec_base::NoMemory;
use std::alloc::Global;

/// The signals that are reached from this one backwards through gates, increasing. It looks at no others.
pub(crate) fn reached(alloc: Global, net: &Net, from: Signal) -> Result<Vec<u32>, NoMemory>
    requires { from.0 < length net.now.drivers }
    ensures { IfOk result (λ signals. AreReached (circuit_of net.now) (length net.now.drivers) from.0 signals.items) }
{
    let seen = signal_graph::inner_cone::latch_cone::reached(alloc, net, from)?;
    let mut sorted = Vec::from_slice(alloc, seen.as_slice())?;
    sorted.sort()?;
    Ok(sorted)
}
