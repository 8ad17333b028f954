//! The variables of a net's inputs and latches.

ghost use Rattle.std.specs.Prelude.{◌≡◌, ◌<◌, length, slice_get, Some, None, IfSome, IfNone};
ghost use Rattle.block_refine.specs.latch_blocks.Signals.{AreVariables, variable_at};

use flat_net::{Driver, Net, Signal};
use sec_base::Ids;

/// A variable for each input and each latch of a net, in their orders.
#[derive(Drop)]
pub struct Variables {
    pub inputs: Ids,
    pub latches: Ids,
}

/// The variable of an input's or a latch's signal.
pub(crate) fn variable_at(net: &Net, variables: &Variables, s: Signal) -> Option<u32>
    requires signal { s.0 < length net.now.drivers }
    requires variables { AreVariables net.now variables.now }
    ensures here { IfSome result (λ k. variable_at net.now variables.now s.0 ≡ Some k) }
    ensures none { IfNone result (variable_at net.now variables.now s.0 ≡ None) }
{
    net.keeps();
    match net.driver(s) {
        Driver::Input(i) => Some(variable_in(&variables.inputs, i)),
        Driver::Latch(j) => Some(variable_in(&variables.latches, j)),
        Driver::Gate(_) => None,
    }
}

/// The variable of the input or the latch with this number.
pub(crate) fn variable_in(variables: &Ids, number: u32) -> u32
    requires { number < length variables.now }
    ensures { slice_get variables.now number ≡ Some result }
{
    variables.as_slice()[number as usize]
}
