//! A net's run with the marks of the signals that are settled.

ghost use Rattle.std.specs.Prelude.{◌≡◌, ◌+◌, ◌^◌, ◌<◌, false, true, ℕ, Bool, List, [], ◌∷◌, ◌++◌, length, replicate, slice_get, Some, IfOk, IfSome};
ghost use Rattle.flat_net.specs.declared.signals.Signal.{Signal};
ghost use Rattle.flat_net.specs.declared.parts.LatchAt.{LatchAt};
ghost use Rattle.signal_graph.specs.inner_cone.Inner.{AreRanked};
ghost use Rattle.signal_graph.specs.inner_cone.Sides.{AreSides};
ghost use Rattle.signal_graph.specs.inner_cone.Gates.{AreInnerGates};
ghost use Rattle.cycle_sim.specs.Runs.{power_bits, reset_bits, FitsLatches};
ghost use Rattle.cycle_sim.specs.View.{HasMarkedRun, IsLatest, IsLatestMark};
ghost use Rattle.cycle_sim.specs.Steps.{AreConesKept};

use crate::cycle_marks::mark;
use crate::initial_values::reset_power;
use crate::next_marks::mark_ahead;
use crate::power::Power;
use crate::sim::Sim;
use flat_net::{Net, Signals};
use sec_base::{Bits, Ids, NoMemory};
use signal_graph::inner_cone::{InnerParts, inner_parts, ranks};
use std::alloc::Global;
use std::marker::Model;

/// The run of a net from a power-up, of which it keeps the latest cycle and the marks of its settled signals. It
/// borrows the net for its life.
pub struct MarkedSim<'a> {
    net: &'a Net,
    sim: Sim<'a>,
    enabled: Bits,
    /// For each latch that counts as enabled the parts of its cone by which its next value depends on it.
    cones: Vec<InnerParts>,
    /// Room to try out values.
    tried: Vec<bool>,
    marks: Vec<bool>,
    marks_ahead: Vec<bool>,
}

/// It is let go by one call: an owner isn't taken apart field by field at each way out.
impl Drop for MarkedSim<'_> {
    fn drop(self) {
        let MarkedSim {
            net: _,
            sim: _,
            enabled: _,
            cones: _,
            tried: _,
            marks: _,
            marks_ahead: _,
        } = self;
    }
}

impl<'a> Model for MarkedSim<'a> {
    ghost use Rattle.std.specs.Prelude.{◌≡◌, length};
    ghost use Rattle.flat_net.specs.Sound.{IsSound};
    ghost use Rattle.cycle_sim.specs.View.{MarkedView};
    ghost use Rattle.cycle_sim.specs.Steps.{AreConesKept};

    ghost Value = { MarkedView };

    ghost view = { λ m. record { sim = m.sim; enabled = m.enabled; marks = m.marks.items; marks_ahead = m.marks_ahead.items } };

    ghost invariant = { λ m. (m.sim.net ≡ m.net.now) × (length m.enabled ≡ length m.net.now.latches) × AreConesKept m.net.now m.enabled m.cones.items
        × (length m.tried.items ≡ length m.net.now.drivers) × (length m.marks.items ≡ length m.net.now.drivers) × (length m.marks_ahead.items ≡ length m.net.now.latches) };
}

impl<'a> MarkedSim<'a> {
    /// The net before its first cycle, with the latches at their power-up values and nothing settled. The latches whose
    /// bits are set count as enabled: such a latch is settled in the next cycle where all other latches of its cone are
    /// settled and it loads or is settled already.
    pub fn new(
        alloc: Global,
        net: &'a Net,
        power: &Power,
        enabled: &Bits,
    ) -> Result<MarkedSim<'a>, NoMemory>
        requires power { FitsLatches (length net.now.latches) power.now }
        requires enabled { length enabled.now ≡ length net.now.latches }
        ensures net { IfOk result (λ marked. marked.sim.net ≡ net.now) }
        ensures enabled { IfOk result (λ marked. marked.enabled ≡ enabled.now) }
        ensures cycles { IfOk result (λ marked. marked.sim.cycles ≡ 0) }
        ensures run { IfOk result (λ marked. HasMarkedRun marked (power_bits (length net.now.latches) power.now) []) }
    {
        net.keeps();
        let cones = cones_of(alloc, net, enabled.as_slice())?;
        let sim = Sim::new(alloc, net, power)?;
        let bits = enabled.copy()?;
        let (tried, marks, marks_ahead) = rooms(alloc, net)?;
        Ok(MarkedSim {
            net,
            sim,
            enabled: bits,
            cones,
            tried,
            marks,
            marks_ahead,
        })
    }

    /// The same, where each latch powers up with its initial value 0 or 1, and with its bit of `free` where it has none. Initial
    /// values settle nothing.
    pub fn reset(
        alloc: Global,
        net: &'a Net,
        free: &Bits,
        enabled: &Bits,
    ) -> Result<MarkedSim<'a>, NoMemory>
        requires free { length free.now ≡ length net.now.latches }
        requires enabled { length enabled.now ≡ length net.now.latches }
        ensures net { IfOk result (λ marked. marked.sim.net ≡ net.now) }
        ensures enabled { IfOk result (λ marked. marked.enabled ≡ enabled.now) }
        ensures cycles { IfOk result (λ marked. marked.sim.cycles ≡ 0) }
        ensures run { IfOk result (λ marked. HasMarkedRun marked (reset_bits net.now.latches free.now) []) }
    {
        let power = reset_power(alloc, net, free)?;
        MarkedSim::new(alloc, net, &power, enabled)
    }

    /// Computes the next cycle of the run and its marks, from one bit for each input, in the net's order. It takes no
    /// memory.
    pub fn step(&mut self, inputs: &[bool])
        requires width { length inputs.now ≡ length self.old.sim.net.inputs }
        requires room { self.old.sim.cycles + 1 < 2 ^ 32 }
        ensures net { self.new.sim.net ≡ self.old.sim.net }
        ensures enabled { self.new.enabled ≡ self.old.enabled }
        ensures cycles { self.new.sim.cycles ≡ self.old.sim.cycles + 1 }
        ensures run { (power : List Bool) (rows : List (List Bool)) → HasMarkedRun self.old power rows → HasMarkedRun self.new power (rows ++ inputs.now ∷ []) }
    {
        let net = self.net;
        net.keeps();
        self.sim.step(inputs);
        mark(net, &self.marks_ahead, &mut self.marks);
        mark_ahead(
            net,
            self.enabled.as_slice(),
            &self.cones,
            self.sim.values(),
            &self.marks,
            &mut self.tried,
            &mut self.marks_ahead,
        );
    }

    /// How many cycles are computed.
    pub fn cycles(&self) -> u32
        ensures { result ≡ self.now.sim.cycles }
    {
        self.sim.cycles()
    }

    /// The value of output i in the latest cycle.
    pub fn output(&self, i: u32) -> bool
        requires place { i < length self.now.sim.net.outputs }
        requires begun { 0 < self.now.sim.cycles }
        ensures { IfSome (slice_get self.now.sim.net.outputs i) (λ port. IsLatest self.now.sim port.signal.0 result) }
    {
        self.sim.output(i)
    }

    /// Whether output i is settled in the latest cycle.
    pub fn mark(&self, i: u32) -> bool
        requires place { i < length self.now.sim.net.outputs }
        requires begun { 0 < self.now.sim.cycles }
        ensures { IfSome (slice_get self.now.sim.net.outputs i) (λ port. IsLatestMark self.now port.signal.0 result) }
    {
        let net = self.net;
        net.keeps();
        self.marks[net.outputs()[i as usize].signal.0 as usize]
    }
}

/// For each latch whose bit is set the parts of its cone by which its next value depends on it.
fn cones_of(alloc: Global, net: &Net, enabled: &[bool]) -> Result<Vec<InnerParts>, NoMemory>
    requires { length enabled.now ≡ length net.now.latches }
    ensures { IfOk result (λ cones. AreConesKept net.now enabled.now cones.items) }
{
    let numbers = ranks(alloc, net)?;
    cones_by(alloc, net, numbers.as_slice(), enabled)
}

/// The same, by numbers of the signals.
fn cones_by(
    alloc: Global,
    net: &Net,
    numbers: &[u32],
    enabled: &[bool],
) -> Result<Vec<InnerParts>, NoMemory>
    requires ranked { AreRanked net.now numbers.now }
    requires enabled { length enabled.now ≡ length net.now.latches }
    ensures { IfOk result (λ cones. AreConesKept net.now enabled.now cones.items) }
{
    net.keeps();
    let mut cones = Vec::with_capacity(alloc, enabled.len())?;
    for j in 0..enabled.len() {
        cones.push(cone_where(alloc, net, numbers, enabled[j], j as u32)?)?;
    }
    Ok(cones)
}

/// These parts of the latch's cone, where that is asked.
fn cone_where(
    alloc: Global,
    net: &Net,
    numbers: &[u32],
    asked: bool,
    latch: u32,
) -> Result<InnerParts, NoMemory>
    requires ranked { AreRanked net.now numbers.now }
    requires latch { latch < length net.now.latches }
    ensures sides { asked ≡ true → IfOk result (λ cone. (l : LatchAt) → slice_get net.now.latches latch ≡ Some l → AreSides net.now l.next.0 l.out.0 cone.sides) }
    ensures gates { asked ≡ true → IfOk result (λ cone. (l : LatchAt) → slice_get net.now.latches latch ≡ Some l → AreInnerGates net.now l cone.gates) }
{
    if asked {
        inner_parts(alloc, net, numbers, latch)
    } else {
        Ok(InnerParts {
            sides: Signals::new(alloc),
            gates: Ids::new(alloc),
        })
    }
}

/// So many places, none of them set.
fn cleared(alloc: Global, count: usize) -> Result<Vec<bool>, NoMemory>
    ensures { IfOk result (λ places. places.items ≡ replicate count false) }
{
    Ok(vec![in alloc; false; count]?)
}

/// Room to try values out, the marks of a cycle, and those of the latches in the next one. Nothing is marked.
fn rooms(alloc: Global, net: &Net) -> Result<(Vec<bool>, Vec<bool>, Vec<bool>), NoMemory>
    ensures tried { IfOk result (λ r. length r.0.items ≡ length net.now.drivers) }
    ensures marks { IfOk result (λ r. length r.1.items ≡ length net.now.drivers) }
    ensures ahead { IfOk result (λ r. r.2.items ≡ replicate (length net.now.latches) false) }
{
    let tried = cleared(alloc, net.size() as usize)?;
    let marks = cleared(alloc, net.size() as usize)?;
    let marks_ahead = cleared(alloc, net.latches().len())?;
    Ok((tried, marks, marks_ahead))
}
