//! What all signals of a net count together.

ghost use Rattle.std.specs.Prelude.{◌≤◌, ◌↔◌, IsTrue};
ghost use Rattle.block_refine.specs.latch_blocks.Signals.{net_weight};

use flat_net::{Net, Signal, weigh};
use sec_base::MAX_WEIGHT;

/// Whether all inputs, latches and gates of the net count no more than the limit together.
pub fn is_light(net: &Net) -> bool
    ensures { IsTrue result ↔ (net_weight net.now ≤ MAX_WEIGHT) }
{
    let mut total = 0;
    for s in 0..net.size() {
        let Some(more) = weigh(net, Signal(s), MAX_WEIGHT - total) else {
            return false;
        };
        total += more;
    }
    true
}
