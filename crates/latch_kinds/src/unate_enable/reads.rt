//! What signals count together.

ghost use Rattle.std.specs.Prelude.{◌≡◌, true, ◌<◌, ◌≤◌, length, IsTrue, ◌↔◌, All};
ghost use Rattle.std.specs.List.{sum_by};
ghost use Rattle.flat_net.specs.Weights.{weight_at};
ghost use Rattle.latch_kinds.specs.unate_enable.Recovery.{AreConesLight};

use flat_net::{Net, Signal, weigh};
use sec_base::MAX_WEIGHT;

/// Whether the signals count no more than the limit together.
pub(crate) fn are_light(net: &Net, signals: &[u32]) -> bool
    requires { All (λ s. s < length net.now.drivers) signals.now }
    ensures { IsTrue result ↔ (sum_by (weight_at net.now) signals.now ≤ MAX_WEIGHT) }
{
    let mut total = 0;
    for s in signals {
        let Some(more) = weigh(net, Signal(*s), MAX_WEIGHT - total) else {
            return false;
        };
        total += more;
    }
    true
}

/// Whether the net's signals count no more than the limit together, so that no cone does.
pub(crate) fn are_cones_light(net: &Net) -> bool
    ensures { result ≡ true → AreConesLight net.now }
{
    net.keeps();
    let mut total = 0;
    for s in 0..net.size() {
        let Some(more) = weigh(net, Signal(s), MAX_WEIGHT - total) else {
            return false;
        };
        total += more;
    }
    true
}
