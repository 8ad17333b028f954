//! Whether the signals of a net stand in the order of its inputs, then its latches, then its gates.

ghost use Rattle.std.specs.Prelude.{◌≡◌, ◌+◌, ◌≤◌, ◌^◌, true, length};
ghost use Rattle.net_names.specs.Laid.{IsLaid, AreInputsLaid, AreLatchesLaid, AreGatesLaid};

use flat_net::{Gate, LatchAt, Net, Port};

/// Whether the inputs are the first signals, in their order.
fn are_inputs_laid(ports: &[Port]) -> bool
    ensures { result ≡ true → AreInputsLaid ports.now }
{
    for (place, port) in ports.iter().enumerate() {
        if port.signal.0 as usize != place {
            return false;
        }
    }
    true
}

/// Whether the latches are the signals from this one on, in their order.
fn are_latches_laid(first: u32, latches: &[LatchAt]) -> bool
    ensures { result ≡ true → AreLatchesLaid first latches.now }
{
    for (place, latch) in latches.iter().enumerate() {
        if latch.out.0 < first || (latch.out.0 - first) as usize != place {
            return false;
        }
    }
    true
}

/// Whether the gates are the signals from this one on, in their order.
fn are_gates_laid(first: u32, gates: &[Gate]) -> bool
    ensures { result ≡ true → AreGatesLaid first gates.now }
{
    for (place, gate) in gates.iter().enumerate() {
        if gate.out.0 < first || (gate.out.0 - first) as usize != place {
            return false;
        }
    }
    true
}

/// Whether the signals of the net are its inputs, then its latches, then its gates, each in their order.
pub(crate) fn is_laid(net: &Net) -> bool
    ensures { result ≡ true → IsLaid net.now }
{
    net.keeps();
    let inputs = net.inputs().len();
    let latches = net.latches().len();
    if inputs + latches + net.gates().len() != net.size() as usize {
        return false;
    }
    are_inputs_laid(net.inputs())
        && are_latches_laid(inputs as u32, net.latches())
        && are_gates_laid((inputs + latches) as u32, net.gates())
}
