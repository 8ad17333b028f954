//! The cycles of a simulation.

ghost use Rattle.std.specs.Prelude.{◌≡◌, ◌+◌, ◌^◌, ◌<◌, ℕ, Bool, List, [], ◌∷◌, ◌++◌, length, map, All, IfOk, OnOk};
ghost use Rattle.cycle_sim.specs.View.{HasMarkedRun};
ghost use Rattle.circuit_report.specs.sim_report.Checks.{start_bits};
ghost use Rattle.circuit_report.specs.sim_report.Cycles.{AreLatest, AreMarks, PutsLatest, PutsCycles, reordered};

use crate::sim_report::columns::reorder;
use crate::sim_report::text::put_cycle;
use cycle_sim::{MarkedSim, Power};
use flat_net::Net;
use sec_base::{Bits, NoMemory};
use std::alloc::Global;

/// The values of the outputs, of which there are so many, in the latest cycle.
fn latest_values(alloc: Global, sim: &MarkedSim<'_>, count: u32) -> Result<Vec<bool>, NoMemory>
    requires count { count ≡ length sim.now.sim.net.outputs }
    requires begun { 0 < sim.now.sim.cycles }
    ensures { IfOk result (λ bits. AreLatest sim.now.sim bits.items) }
{
    let mut bits = Vec::new(alloc);
    for i in 0..count {
        bits.push(sim.output(i))?;
    }
    Ok(bits)
}

/// The marks of the outputs, of which there are so many, in the latest cycle.
fn latest_marks(alloc: Global, sim: &MarkedSim<'_>, count: u32) -> Result<Vec<bool>, NoMemory>
    requires count { count ≡ length sim.now.sim.net.outputs }
    requires begun { 0 < sim.now.sim.cycles }
    ensures { IfOk result (λ bits. AreMarks sim.now bits.items) }
{
    let mut bits = Vec::new(alloc);
    for i in 0..count {
        bits.push(sim.mark(i))?;
    }
    Ok(bits)
}

/// Computes the next cycle, from one bit for each input in the net's order, and puts its line behind the text. There are
/// so many outputs.
fn put_next(
    alloc: Global,
    text: &mut Vec<u8>,
    sim: &mut MarkedSim<'_>,
    inputs: &[bool],
    outputs: u32,
) -> Result<(), NoMemory>
    requires count { outputs ≡ length sim.old.sim.net.outputs }
    requires width { length inputs.now ≡ length sim.old.sim.net.inputs }
    requires room { sim.old.sim.cycles + 1 < 2 ^ 32 }
    ensures net { sim.new.sim.net ≡ sim.old.sim.net }
    ensures enabled { sim.new.enabled ≡ sim.old.enabled }
    ensures cycles { sim.new.sim.cycles ≡ sim.old.sim.cycles + 1 }
    ensures run { (power : List Bool) (rows : List (List Bool)) → HasMarkedRun sim.old power rows → HasMarkedRun sim.new power (rows ++ inputs.now ∷ []) }
    ensures put { OnOk result (PutsLatest sim.new text.old.items text.new.items) }
{
    sim.step(inputs);
    let values = latest_values(alloc, sim, outputs)?;
    let marks = latest_marks(alloc, sim, outputs)?;
    put_cycle(
        alloc,
        text,
        sim.cycles() - 1,
        values.as_slice(),
        marks.as_slice(),
    )
}

/// What the latches of a net power up with.
#[derive(Drop)]
pub(crate) struct PowerUp {
    /// One bit for each latch.
    pub(crate) bits: Bits,
    /// Whether a latch has its initial value 0 or 1 in place of its bit, if it has one.
    pub(crate) reset: bool,
}

/// The net before its first cycle, where the latches whose bits are set count as enabled.
fn powered_up<'a>(
    alloc: Global,
    net: &'a Net,
    power: PowerUp,
    enabled: &Bits,
) -> Result<MarkedSim<'a>, NoMemory>
    requires power { length power.bits ≡ length net.now.latches }
    requires enabled { length enabled.now ≡ length net.now.latches }
    ensures net { IfOk result (λ sim. sim.sim.net ≡ net.now) }
    ensures enabled { IfOk result (λ sim. sim.enabled ≡ enabled.now) }
    ensures cycles { IfOk result (λ sim. sim.sim.cycles ≡ 0) }
    ensures run { IfOk result (λ sim. HasMarkedRun sim (start_bits net.now power.reset power.bits) []) }
{
    if power.reset {
        MarkedSim::reset(alloc, net, &power.bits, enabled)
    } else {
        MarkedSim::new(alloc, net, &Power::Given(power.bits), enabled)
    }
}

/// Puts a line for each cycle of the net's run from the power-up, where the bits of its inputs stand in these columns of
/// the rows, and the latches whose bits are set count as enabled. A net with 2^32 outputs or more answers `NoMemory`.
pub(crate) fn put_cycles(
    alloc: Global,
    text: &mut Vec<u8>,
    net: &Net,
    power: PowerUp,
    enabled: &Bits,
    columns: &[u32],
    rows: &[Bits],
) -> Result<(), NoMemory>
    requires power { length power.bits ≡ length net.now.latches }
    requires enabled { length enabled.now ≡ length net.now.latches }
    requires columns { length columns.now ≡ length net.now.inputs }
    requires within { All (λ row. All (λ k. k < length row) columns.now) rows.now }
    requires few { length rows.now < 2 ^ 32 }
    ensures { OnOk result (PutsCycles net.now enabled.now (start_bits net.now power.reset power.bits) (map (reordered columns.now) rows.now) text.old.items text.new.items) }
{
    let Ok(outputs) = u32::try_from(net.outputs().len()) else {
        return Err(NoMemory);
    };
    let mut sim = powered_up(alloc, net, power, enabled)?;
    let mut bits = vec![in alloc; false; columns.len()]?;
    for row in rows {
        reorder(row.as_slice(), columns, &mut bits);
        put_next(alloc, text, &mut sim, &bits, outputs)?;
    }
    Ok(())
}
