//! The values of latches in cycle 0 by their initial values.

ghost use Rattle.std.specs.Prelude.{◌≡◌, length, IfOk};
ghost use Rattle.cycle_sim.specs.Runs.{initial_or, reset_bits, power_bits, FitsLatches};

use crate::power::Power;
use flat_net::{LatchAt, Net};
use sec_base::{Bits, Init, NoMemory, Seq};
use std::alloc::Global;

/// A latch's value in cycle 0: its initial value 0 or 1, and else the bit.
fn initial_or(init: Init, bit: bool) -> bool
    ensures { result ≡ initial_or init bit }
{
    match init {
        Init::Zero => false,
        Init::One => true,
        Init::DontCare => bit,
        Init::Unknown => bit,
    }
}

fn reset_bits(alloc: Global, latches: &[LatchAt], free: &[bool]) -> Result<Vec<bool>, NoMemory>
    requires { length free.now ≡ length latches.now }
    ensures { IfOk result (λ bits. bits.items ≡ reset_bits latches.now free.now) }
{
    let mut bits = Vec::with_capacity(alloc, latches.len())?;
    for (j, latch) in latches.iter().enumerate() {
        bits.push(initial_or(latch.init, free[j]))?;
    }
    Ok(bits)
}

/// The power-up of the net where each latch has its initial value 0 or 1, and its bit where it has none.
pub(crate) fn reset_power(alloc: Global, net: &Net, free: &Bits) -> Result<Power, NoMemory>
    requires { length free.now ≡ length net.now.latches }
    ensures fits { IfOk result (λ p. FitsLatches (length net.now.latches) p) }
    ensures bits { IfOk result (λ p. power_bits (length net.now.latches) p ≡ reset_bits net.now.latches free.now) }
{
    let bits = reset_bits(alloc, net.latches(), free.as_slice())?;
    Ok(Power::Given(Seq::from_vec(bits)))
}
