//! A net's run, cycle by cycle.

ghost use Rattle.std.specs.Prelude.{◌≡◌, ◌+◌, ◌-◌, ◌^◌, ◌<◌, ℕ, Bool, List, [], ◌∷◌, ◌++◌, length, slice_get, IfOk, IfSome};
ghost use Rattle.cycle_sim.specs.Runs.{power_bits, reset_bits, FitsLatches};
ghost use Rattle.cycle_sim.specs.View.{SimView, HasRun, IsLatest};

use crate::cycles::{compute, take_over};
use crate::initial_values::reset_power;
use crate::power::Power;
use flat_net::Net;
use sec_base::{Bits, NoMemory};
use std::alloc::Global;
use std::marker::Model;

/// The run of a net from a power-up, of which it keeps the latest cycle. It borrows the net for its life.
pub struct Sim<'a> {
    net: &'a Net,
    cycles: u32,
    values: Vec<bool>,
    ahead: Vec<bool>,
}

/// It is let go by one call: an owner isn't taken apart field by field at each way out.
impl Drop for Sim<'_> {
    fn drop(self) {
        let Sim {
            net: _,
            cycles: _,
            values: _,
            ahead: _,
        } = self;
    }
}

impl<'a> Model for Sim<'a> {
    ghost use Rattle.std.specs.Prelude.{◌≡◌, length};
    ghost use Rattle.cycle_sim.specs.View.{SimView};

    ghost Value = { SimView };

    ghost view = { λ s. record { net = s.net.now; cycles = s.cycles; values = s.values.items; ahead = s.ahead.items } };

    ghost invariant = { λ s. (length s.values.items ≡ length s.net.now.drivers) × (length s.ahead.items ≡ length s.net.now.latches) };
}

impl<'a> Sim<'a> {
    /// The net before its first cycle, with the latches at their power-up values.
    pub fn new(alloc: Global, net: &'a Net, power: &Power) -> Result<Sim<'a>, NoMemory>
        requires { FitsLatches (length net.now.latches) power.now }
        ensures net { IfOk result (λ sim. sim.net ≡ net.now) }
        ensures cycles { IfOk result (λ sim. sim.cycles ≡ 0) }
        ensures run { IfOk result (λ sim. HasRun sim (power_bits (length net.now.latches) power.now) []) }
    {
        Ok(Sim {
            net,
            cycles: 0,
            values: vec![in alloc; false; net.size() as usize]?,
            ahead: powered_up(alloc, net.latches().len(), power)?,
        })
    }

    /// The net before its first cycle, where each latch powers up with its initial value 0 or 1, and with its bit of `free`
    /// where it has none.
    pub fn reset(alloc: Global, net: &'a Net, free: &Bits) -> Result<Sim<'a>, NoMemory>
        requires { length free.now ≡ length net.now.latches }
        ensures net { IfOk result (λ sim. sim.net ≡ net.now) }
        ensures cycles { IfOk result (λ sim. sim.cycles ≡ 0) }
        ensures run { IfOk result (λ sim. HasRun sim (reset_bits net.now.latches free.now) []) }
    {
        let power = reset_power(alloc, net, free)?;
        Sim::new(alloc, net, &power)
    }

    /// Computes the next cycle of the run, from one bit for each input, in the net's order. It takes no memory.
    pub fn step(&mut self, inputs: &[bool])
        requires width { length inputs.now ≡ length self.old.net.inputs }
        requires room { self.old.cycles + 1 < 2 ^ 32 }
        ensures net { self.new.net ≡ self.old.net }
        ensures cycles { self.new.cycles ≡ self.old.cycles + 1 }
        ensures run { (power : List Bool) (rows : List (List Bool)) → HasRun self.old power rows → HasRun self.new power (rows ++ inputs.now ∷ []) }
    {
        let net = self.net;
        net.keeps();
        compute(net, inputs, &self.ahead, &mut self.values);
        take_over(net, &self.values, &mut self.ahead);
        self.cycles += 1;
    }

    /// How many cycles are computed.
    pub fn cycles(&self) -> u32
        ensures { result ≡ self.now.cycles }
    {
        self.cycles
    }

    /// The value of each signal in the latest cycle.
    pub(crate) fn values(&self) -> &[bool]
        ensures is { result.now ≡ self.now.values }
        ensures size { length result.now ≡ length self.now.net.drivers }
    {
        &self.values
    }

    /// The value of output i in the latest cycle.
    pub fn output(&self, i: u32) -> bool
        requires place { i < length self.now.net.outputs }
        requires begun { 0 < self.now.cycles }
        ensures { IfSome (slice_get self.now.net.outputs i) (λ port. IsLatest self.now port.signal.0 result) }
    {
        let net = self.net;
        net.keeps();
        self.values[net.outputs()[i as usize].signal.0 as usize]
    }
}

/// One bit for each latch.
fn powered_up(alloc: Global, latches: usize, power: &Power) -> Result<Vec<bool>, NoMemory>
    requires { FitsLatches latches power.now }
    ensures { IfOk result (λ bits. bits.items ≡ power_bits latches power.now) }
{
    let made = match power {
        Power::Zeros => vec![in alloc; false; latches],
        Power::Ones => vec![in alloc; true; latches],
        Power::Given(bits) => Vec::from_slice(alloc, bits.as_slice()),
    };
    Ok(made?)
}
