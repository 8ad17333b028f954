//! The power-up of a circuit, by the bits of its latches' variables.

ghost use Rattle.std.specs.Prelude.{◌≡◌, length, IfOk};
ghost use Rattle.flat_net.specs.View.{circuit_of};
ghost use Rattle.circuit_laws.specs.reset_laws.Reset.{powers};
ghost use Rattle.cbf_unfold.specs.shift_variables.Sequences.{bits_at};
ghost use Rattle.cbf_unfold.specs.shift_variables.cycle_variables.Cycles.{AreInCycles, IsPowerUp, start_or};

use crate::shift_variables::cycle_variables::rows::bits_from;
use crate::shift_variables::end_of_shift;
use base_tables::PlaceTable;
use flat_net::Net;
use sec_base::{Bits, Init, NoMemory, Seq};
use std::alloc::Global;

/// The power-up of a net whose latches' variables have the numbers from `base` on, a bit for each latch: its initial value where
/// that is 0 or 1, else the bit of its variable in cycle 0, and 0 without one.
pub fn power_up(
    alloc: Global,
    net: &Net,
    base: u32,
    places: &PlaceTable,
    vars: &[u32],
    bits: &[bool],
) -> Result<Bits, NoMemory>
    requires each { length bits.now ≡ length vars.now }
    requires in_order { AreInCycles places.now vars.now }
    ensures { IfOk result (λ power. power ≡ powers (circuit_of net.now) base (bits_at places.now vars.now bits.now)) }
{
    net.keeps();
    let count = net.latches().len();
    let end = end_of_shift(places, vars, 0, 0);
    let free = bits_from(alloc, places, &vars[0..end], &bits[0..end], base, count)?;
    powers_of(alloc, net, free.as_slice())
}

/// The power-up, where the latches have these bits that have no initial value 0 or 1.
fn powers_of(alloc: Global, net: &Net, free: &[bool]) -> Result<Bits, NoMemory>
    requires { length free.now ≡ length net.now.latches }
    ensures { IfOk result (λ power. IsPowerUp (circuit_of net.now) free.now power) }
{
    net.keeps();
    let latches = net.latches();
    let mut power = Vec::with_capacity(alloc, latches.len())?;
    for j in 0..latches.len() {
        let latch = &latches[j];
        power.push(start_or(latch.init, free[j]))?;
    }
    Ok(Seq::from_vec(power))
}

/// The initial value where it is 0 or 1, and else the bit.
fn start_or(init: Init, bit: bool) -> bool
    ensures { result ≡ start_or init bit }
{
    match init {
        Init::Zero => false,
        Init::One => true,
        Init::DontCare => bit,
        Init::Unknown => bit,
    }
}
