//! The care of an event function.

ghost use Rattle.std.specs.Prelude.{◌≡◌, ℕ, suc, ◌+◌, ◌*◌, ◌^◌, ◌<◌, length, take, slice_get, Some, All, Contains, IsTrue, IfOk, OnOk};
ghost use Rattle.edbf_unfold.specs.event_literals.Driver.TheVariants as driver;
ghost use Rattle.event_nodes.specs.Graph.{flip};
ghost use Rattle.event_nodes.specs.Lit.{Lit};
ghost use Rattle.edbf_unfold.specs.declared.event_literals.event_walk.frames.Ways.{Ways};
ghost use Rattle.edbf_unfold.specs.event_literals.Known.{AreKnown, HasGrown, IsMet};
ghost use Rattle.edbf_unfold.specs.event_literals.event_walk.Ready.{IsReadyBy};
ghost use Rattle.edbf_unfold.specs.event_literals.Built.{AreMetOn};
ghost use Rattle.edbf_unfold.specs.event_literals.ShortOr.{IsShortOr};
ghost use Rattle.edbf_unfold.specs.Care.{HasEnable, IsEnableBy, IsAndOfThese, IsCareOf};

use super::EventUnfolder;
use crate::event_literals::{
    Aig, Driver, EventGraph, Lit, NoMemory, Place, PlaceTable, Signal, Ways, constant, latch_of,
    short_and,
};
use std::alloc::Global;

/// The literal of an enable by those of its two functions: the one with the latch at 0, or not that with it at 1.
pub(super) fn enable_of(events: &mut EventGraph, low: Lit, high: Lit) -> Result<Lit, NoMemory>
    requires low { low.0 < 2 * length events.old.graph }
    requires high { high.0 < 2 * length events.old.graph }
    requires room { length events.old.graph + 1 < 2 ^ 30 }
    ensures here { IfOk result (λ x. IsShortOr events.new.graph low.0 (flip high.0) x.0) }
    ensures within { IfOk result (λ x. x.0 < 2 * length events.new.graph) }
    ensures grown { HasGrown events.old events.new 1 }
{
    events.keeps();
    let (left, right) = short_and(events.aig(), Aig::not(low), high);
    let hold = events.and(left, right)?;
    events.keeps();
    Ok(Aig::not(hold))
}

impl<'a> EventUnfolder<'a> {
    /// The and of the enables of the enabled latches at these places, each at the child by its class. Each literal is taken once, in the order of
    /// their numbers: latches behind the same enables have one care, whatever places these were met at.
    pub(super) fn care_of(
        &self,
        alloc: Global,
        events: &mut EventGraph,
        table: &PlaceTable,
        ways: &[Ways],
    ) -> Result<Lit, NoMemory>
        requires known { AreKnown self.now.circuit events.old self.now.frames self.now.memo }
        requires met { AreMetOn self.now events.old.children table.now ways.now }
        requires room { length events.old.graph + 2 * length table.now < 2 ^ 30 }
        ensures here { IfOk result (λ x. IsCareOf self.now.circuit events.new self.now.frames table.now x.0) }
        ensures grown { HasGrown events.old events.new (2 * length table.now) }
    {
        events.keeps();
        let mut enables = Vec::new(alloc);
        for number in 0..table.len() {
            events.keeps();
            let place = table.pair(number);
            self.put_enable(events, &mut enables, place, ways[number as usize])?;
        }
        enables.sort()?;
        events.keeps();
        and_all(events, enables.as_slice())
    }

    /// Puts the enable of the place's latch behind the others, if that is an enabled one which isn't read as a constant there.
    fn put_enable(
        &self,
        events: &mut EventGraph,
        enables: &mut Vec<u32>,
        place: Place,
        ways: Ways,
    ) -> Result<(), NoMemory>
        requires known { AreKnown self.now.circuit events.old self.now.frames self.now.memo }
        requires ready { IsReadyBy self.now.circuit self.now.frames events.old.children (IsMet self.now.memo) (record { rank = 0; signal = place.1; frame = place.0; onward = ways.onward; high = ways.high }) }
        requires room { length events.old.graph + 1 < 2 ^ 30 }
        ensures here { OnOk result (HasEnable self.now.circuit events.new self.now.frames enables.old.items place enables.new.items) }
        ensures grown { HasGrown events.old events.new 1 }
    {
        let circuit = self.circuit();
        circuit.keeps();
        match circuit.net().driver(Signal(place.1)) {
            Driver::Latch(j) => self.put_latch(events, enables, place, ways, j),
            _ => Ok(()),
        }
    }

    /// The same where a latch drives the signal.
    fn put_latch(
        &self,
        events: &mut EventGraph,
        enables: &mut Vec<u32>,
        place: Place,
        ways: Ways,
        j: u32,
    ) -> Result<(), NoMemory>
        requires known { AreKnown self.now.circuit events.old self.now.frames self.now.memo }
        requires ready { IsReadyBy self.now.circuit self.now.frames events.old.children (IsMet self.now.memo) (record { rank = 0; signal = place.1; frame = place.0; onward = ways.onward; high = ways.high }) }
        requires latch { slice_get self.now.circuit.net.drivers place.1 ≡ Some (driver.Latch j) }
        requires room { length events.old.graph + 1 < 2 ^ 30 }
        ensures here { OnOk result (HasEnable self.now.circuit events.new self.now.frames enables.old.items place enables.new.items) }
        ensures grown { HasGrown events.old events.new 1 }
    {
        let circuit = self.circuit();
        circuit.keeps();
        events.keeps();
        let frame = self.frame(place.0);
        if let Some(_) = constant(frame.put, place.1) {
            return Ok(());
        }
        if circuit.is_enabled(j) {
            let next = latch_of(circuit.net(), j).next.0;
            let enable = self.enable_by(events, (ways.onward, next), (ways.high, next))?;
            events.keeps();
            enables.push(enable.0)?;
            Ok(())
        } else {
            Ok(())
        }
    }

    /// The enable whose two functions were met at these places.
    fn enable_by(&self, events: &mut EventGraph, low: Place, high: Place) -> Result<Lit, NoMemory>
        requires within { (p : ℕ × ℕ) (x : Lit) → Contains self.now.memo (p, x) → x.0 < 2 * length events.old.graph }
        requires low { IsMet self.now.memo low }
        requires high { IsMet self.now.memo high }
        requires room { length events.old.graph + 1 < 2 ^ 30 }
        ensures here { IfOk result (λ x. IsEnableBy self.now.memo events.new.graph low high x.0) }
        ensures grown { HasGrown events.old events.new 1 }
    {
        let f0 = self.met(low);
        let f1 = self.met(high);
        enable_of(events, f0, f1)
    }
}

/// The and of all these literals. One that stands behind an equal one is passed over.
fn and_all(events: &mut EventGraph, lits: &[u32]) -> Result<Lit, NoMemory>
    requires within { All (λ y. y < 2 * length events.old.graph) lits.now }
    requires room { length events.old.graph + length lits.now < 2 ^ 30 }
    ensures here { IfOk result (λ x. IsAndOfThese events.new.graph lits.now x.0) }
    ensures grown { HasGrown events.old events.new (length lits.now) }
{
    events.keeps();
    let mut care = Lit::TRUE;
    for i in 0..lits.len() {
        care = and_next(events, care, lits, i)?;
    }
    Ok(care)
}

/// The and of those before this place, and of the literal there.
fn and_next(events: &mut EventGraph, care: Lit, lits: &[u32], i: usize) -> Result<Lit, NoMemory>
    requires place { i < length lits.now }
    requires within { All (λ y. y < 2 * length events.old.graph) lits.now }
    requires before { IsAndOfThese events.old.graph (take i lits.now) care.0 }
    requires room { length events.old.graph + 1 < 2 ^ 30 }
    ensures here { IfOk result (λ x. IsAndOfThese events.new.graph (take (i + 1) lits.now) x.0) }
    ensures grown { HasGrown events.old events.new 1 }
{
    if is_repeated(lits, i) {
        return Ok(care);
    }
    events.and(care, Lit(lits[i]))
}

/// Whether the literal at this place is the one before it.
fn is_repeated(lits: &[u32], i: usize) -> bool
    requires { i < length lits.now }
    ensures { IsTrue result → (k : ℕ) × (suc k ≡ i) × (slice_get lits.now k ≡ slice_get lits.now i) }
{
    i > 0 && lits[i - 1] == lits[i]
}
