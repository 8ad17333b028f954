//! The walk over the places that an unfolding visits.

ghost use Rattle.std.specs.Prelude.{◌≡◌, ◌⊎◌, ℕ, List, ◌+◌, ◌*◌, ◌^◌, ◌<◌, ◌≤◌, [], ◌∷◌, ◌++◌, length, slice_get, Some, All, Contains, IfOk, OnOk, OnErr, Err};
ghost use Rattle.base_tables.specs.unique_table.Places.{StandOnce};
ghost use Rattle.event_nodes.specs.flat_net.Sound.{IsSound};
ghost use Rattle.circuit_theory.specs.EventSizes.{Start};
ghost use Rattle.event_nodes.specs.flat_net.Driver.TheVariants as driver;
ghost use Rattle.event_nodes.specs.declared.error.EventUnfoldError.TheVariants as unfold_error;
ghost use Rattle.event_nodes.specs.Adds.{Adds};
ghost use Rattle.event_nodes.specs.Nodes.{GrowsEvents, IsTree};
ghost use Rattle.event_nodes.specs.View.{EventCircuitView};
ghost use Rattle.edbf_unfold.specs.event_literals.event_walk.Plan.{AreExpanded, IsPlanOf};
ghost use Rattle.event_nodes.specs.Visited.{IsWeighed, places_weight};
ghost use Rattle.event_nodes.specs.flat_net.Weights.{weight_at};
ghost use Rattle.edbf_unfold.specs.declared.event_literals.event_walk.frames.Frame.{Frame};
ghost use Rattle.edbf_unfold.specs.event_literals.event_walk.Walk.{IsSeen, IsExpanded, AreVisitedPlaces, IsWalk, IsCounting, IsExact, IsStep, IsRefused, IsFrameFor, IsReadAt, IsReadIn, AreReadIn, IsReadPlace};

use crate::event_literals::event_walk::entering::{avoids, enter_latch, free_frame};
use crate::event_literals::event_walk::frames::{Frame, Frames, Put, Step, Ways, constant};
use base_tables::UniqueTable;
use event_nodes::{
    Counter, Driver, EventCircuit, EventGraph, EventUnfoldError, MAX_EVENT_NODES, NoMemory, Place,
    PlaceTable, Signal, add, gate_of,
};
use std::alloc::Global;
use std::marker::Model;

/// Walks over the places that unfoldings of one circuit visit. A contract sees the circuit and the frames that were met.
#[derive(Drop)]
pub struct EventWalker<'a> {
    circuit: &'a EventCircuit,
    frames: Frames,
}

impl<'a> Model for EventWalker<'a> {
    ghost use Rattle.edbf_unfold.specs.event_literals.event_walk.Ready.{EventWalkerView};

    ghost Value = { EventWalkerView };

    ghost view = { λ u. record { circuit = u.circuit.now; frames = u.frames } };
}

impl<'a> EventWalker<'a> {
    /// Nothing is visited yet. It takes no memory.
    pub fn new(alloc: Global, circuit: &'a EventCircuit) -> EventWalker<'a>
        ensures { result ≡ record { circuit = circuit.now; frames = [] } }
    {
        EventWalker {
            circuit,
            frames: UniqueTable::new(alloc, u32::MAX),
        }
    }

    /// The circuit.
    pub fn circuit(&self) -> &'a EventCircuit
        ensures { result.now ≡ self.now.circuit }
    {
        self.circuit
    }

    /// The frame with this number.
    pub fn frame(&self, id: u32) -> Frame
        requires { id < length self.now.frames }
        ensures { slice_get self.now.frames id ≡ Some result }
    {
        self.frames.key(id)
    }

    /// The frame's number. A new frame goes last. After `NoMemory` nothing has changed.
    pub fn intern(&mut self, frame: Frame) -> Result<u32, NoMemory>
        requires { length self.old.frames + 1 < 2 ^ 32 }
        ensures here { IfOk result (λ id. slice_get self.new.frames id ≡ Some frame) }
        ensures grown { OnOk result ((self.new.frames ≡ self.old.frames) ⊎ (self.new.frames ≡ self.old.frames ++ frame ∷ [])) }
        ensures same { self.new ≡ record self.old { frames = self.new.frames } }
        ensures err { OnErr result (self.new ≡ self.old) }
    {
        self.frames.insert(frame)
    }

    /// The places that a walk has expanded, in an order in which what is read comes before what reads it; the event graph has so many
    /// nodes besides the root.
    pub fn plan(
        &self,
        alloc: Global,
        nodes: u32,
        table: &PlaceTable,
        ways: &[Ways],
    ) -> Result<Vec<Step>, NoMemory>
        requires seen { All (λ p. (f : Frame) × (slice_get self.now.frames p.0 ≡ Some f) × (f.node ≤ nodes)) table.now }
        requires each { length ways.now ≡ length table.now }
        ensures { IfOk result (λ plan. (e : EventCircuitView) (children : List (ℕ × ℕ)) → length children ≡ nodes → IsTree children → IsSound e.net → AreExpanded e self.now.frames children table.now ways.now → IsPlanOf e self.now.frames children table.now plan.items) }
    {
        let mut steps = Vec::with_capacity(alloc, table.len() as usize)?;
        for number in 0..table.len() {
            let place = table.pair(number);
            let frame = self.frame(place.0);
            let on = ways[number as usize];
            steps.push(Step {
                rank: nodes - frame.node,
                signal: place.1,
                frame: place.0,
                onward: on.onward,
                high: on.high,
            })?;
        }
        steps.sort()?;
        Ok(steps)
    }

    /// The places that the unfoldings of the root and of the place beside it visit, and the ways of each. They weigh at most five times
    /// what is counted of them, so no limit of their number ends a walk.
    pub fn visited(
        &mut self,
        alloc: Global,
        events: &mut EventGraph,
        counter: &mut Counter,
        root: Place,
        beside: Place,
    ) -> Result<(PlaceTable, Vec<Ways>), EventUnfoldError>
        requires seen { IsSeen self.old.circuit self.old.frames events.old.children root × IsSeen self.old.circuit self.old.frames events.old.children beside }
        requires weighed { IsWeighed self.old.circuit.net counter.old }
        requires frames { length self.old.frames + 20000002 < 2 ^ 32 }
        requires few { length events.old.children < 10000 }
        ensures walked { IfOk result (λ r. (at : ℕ) × (weight : ℕ) × IsWalk self.old self.new events.old events.new root beside r.0 r.1.items at weight (5 * counter.new.weight) × IsExact self.old self.new events.old events.new counter.old counter.new root beside r.0 at × (length r.0 ≤ at)) }
        ensures counting { (s : Start ℕ) → AreVisitedPlaces self.old.circuit self.old.frames events.old.children s root beside → IsCounting self.old.circuit s events.old.children events.new.children counter.old counter.new }
        ensures grows { GrowsEvents events.old events.new }
        ensures refused { IsRefused self.old.circuit.net events.new.children counter.new.places result }
    {
        let circuit = self.circuit();
        circuit.keeps();
        let mut table = PlaceTable::new(alloc);
        add(&mut table, root.0, Signal(root.1))?;
        add(&mut table, beside.0, Signal(beside.1))?;
        let mut ways = Vec::new(alloc);
        let mut at = 0;
        while at < table.len() {
            events.keeps();
            table.keeps();
            self.keeps();
            let place = table.pair(at);
            self.count(counter, place)?;
            let next = self.expand(events, &mut table, place)?;
            ways.push(next)?;
            at += 1;
        }
        Ok((table, ways))
    }

    /// Tells a proof that no frame stands twice. It does nothing.
    fn keeps(&self)
        ensures { StandOnce self.now.frames }
    {
        self.frames.keeps();
    }

    /// Counts the place.
    fn count(&self, counter: &mut Counter, place: Place) -> Result<(), EventUnfoldError>
        requires framed { (f : Frame) × (slice_get self.now.frames place.0 ≡ Some f) }
        requires signal { place.1 < length self.now.circuit.net.drivers }
        requires weighed { IsWeighed self.now.circuit.net counter.old }
        ensures adds { (f : Frame) → slice_get self.now.frames place.0 ≡ Some f → Adds (λ q. q ≡ (f.node, place.1)) counter.old.places counter.new.places }
        ensures here { (f : Frame) → slice_get self.now.frames place.0 ≡ Some f → OnOk result (Contains counter.new.places (f.node, place.1)) }
        ensures weighed { OnOk result (IsWeighed self.now.circuit.net counter.new) }
        ensures large { result ≡ Err unfold_error.TooLarge → 2000000 < places_weight self.now.circuit.net counter.new.places }
        ensures many { result ≡ Err unfold_error.TooManyEvents → ⊥ }
    {
        let node = self.frame(place.0).node;
        let circuit = self.circuit();
        counter.count(circuit.net(), node, Signal(place.1))
    }

    /// Puts what the place reads and what its latch takes over into the table, and gives the ways of the place.
    fn expand(
        &mut self,
        events: &mut EventGraph,
        table: &mut PlaceTable,
        place: Place,
    ) -> Result<Ways, EventUnfoldError>
        requires seen { IsSeen self.old.circuit self.old.frames events.old.children place }
        requires frames { length self.old.frames + 2 < 2 ^ 32 }
        requires few { length events.old.children < 10000 }
        requires table { length table.old + 2 * weight_at self.old.circuit.net place.1 < 2 ^ 32 }
        ensures expanded { IfOk result (λ ways. IsExpanded self.new.circuit self.new.frames events.new.children table.new place ways) }
        ensures step { IsStep self.old self.new events.old events.new place table.old table.new }
        ensures few { length table.new ≤ length table.old + 2 * weight_at self.old.circuit.net place.1 }
        ensures within { OnOk result (length events.new.children < 10000) }
        ensures many { result ≡ Err unfold_error.TooManyEvents → 10000 ≤ length events.new.children }
        ensures large { result ≡ Err unfold_error.TooLarge → ⊥ }
    {
        let circuit = self.circuit();
        circuit.keeps();
        match circuit.net().driver(Signal(place.1)) {
            Driver::Input(_) => Ok(stay(place)),
            Driver::Gate(j) => {
                let gate = gate_of(circuit.net(), j);
                let ways = self.expand_gate(table, place, gate.fanins.as_slice())?;
                Ok(ways)
            }
            Driver::Latch(j) => self.expand_latch(events, table, place, j),
        }
    }

    /// The same for a gate: each fan-in goes into the frame, or, if it surely doesn't reach the latch that is put there, into the frame of
    /// the same node without one.
    fn expand_gate(
        &mut self,
        table: &mut PlaceTable,
        place: Place,
        fanins: &[Signal],
    ) -> Result<Ways, NoMemory>
        requires framed { (f : Frame) × (slice_get self.old.frames place.0 ≡ Some f) }
        requires frames { length self.old.frames + 1 < 2 ^ 32 }
        requires table { length table.old + length fanins.now + 1 < 2 ^ 32 }
        ensures all { IfOk result (λ ways. (f : Frame) → slice_get self.old.frames place.0 ≡ Some f → AreReadIn self.old.circuit.net self.new.frames f place.0 ways.onward table.new fanins.now) }
        ensures adds { (f : Frame) → slice_get self.old.frames place.0 ≡ Some f → Adds (IsReadPlace self.old.circuit.net self.new.frames f place.0 fanins.now) table.old table.new }
        ensures frames { Adds (λ f. Unit {0}) self.old.frames self.new.frames }
        ensures few_frames { length self.new.frames ≤ length self.old.frames + 1 }
        ensures same { self.new ≡ record self.old { frames = self.new.frames } }
        ensures few { length table.new ≤ length table.old + length fanins.now }
    {
        let frame = self.frame(place.0);
        let free = free_frame(&mut self.frames, place.0, frame)?;
        self.add_reads(table, frame.put, place.0, free, fanins)?;
        Ok(Ways {
            onward: free,
            high: free,
        })
    }

    /// Puts the fan-ins' places into the table.
    fn add_reads(
        &self,
        table: &mut PlaceTable,
        put: Put,
        own: u32,
        free: u32,
        fanins: &[Signal],
    ) -> Result<(), NoMemory>
        requires { length table.old + length fanins.now + 1 < 2 ^ 32 }
        ensures adds { Adds (IsReadAt self.now.circuit.net put own free fanins.now) table.old table.new }
        ensures all { OnOk result (All (IsReadIn self.now.circuit.net put own free table.new) fanins.now) }
        ensures few { length table.new ≤ length table.old + length fanins.now }
    {
        for fanin in fanins {
            let frame = self.frame_for(put, own, free, *fanin);
            add(table, frame, *fanin)?;
        }
        Ok(())
    }

    /// The frame of a fan-in by its number.
    fn frame_for(&self, put: Put, own: u32, free: u32, fanin: Signal) -> u32
        ensures { IsFrameFor self.now.circuit.net put own free fanin.0 result }
    {
        if avoids(self.circuit(), put, fanin.0) {
            free
        } else {
            own
        }
    }

    /// The same for a latch.
    fn expand_latch(
        &mut self,
        events: &mut EventGraph,
        table: &mut PlaceTable,
        place: Place,
        j: u32,
    ) -> Result<Ways, EventUnfoldError>
        requires seen { IsSeen self.old.circuit self.old.frames events.old.children place }
        requires latch { slice_get self.old.circuit.net.drivers place.1 ≡ Some (driver.Latch j) }
        requires frames { length self.old.frames + 2 < 2 ^ 32 }
        requires few { length events.old.children < 10000 }
        requires table { length table.old + 2 < 2 ^ 32 }
        ensures expanded { IfOk result (λ ways. IsExpanded self.new.circuit self.new.frames events.new.children table.new place ways) }
        ensures step { IsStep self.old self.new events.old events.new place table.old table.new }
        ensures few { length table.new ≤ length table.old + 2 }
        ensures within { OnOk result (length events.new.children < 10000) }
        ensures many { result ≡ Err unfold_error.TooManyEvents → 10000 ≤ length events.new.children }
        ensures large { result ≡ Err unfold_error.TooLarge → ⊥ }
    {
        let circuit = self.circuit();
        circuit.keeps();
        let frame = self.frame(place.0);
        if let Some(_) = constant(frame.put, place.1) {
            return Ok(stay(place));
        }
        let child = events.child(frame.node, circuit.class(j))?;
        events.keeps();
        let nodes = events.nodes();
        if nodes >= MAX_EVENT_NODES {
            return Err(EventUnfoldError::TooManyEvents);
        }
        let ways = enter_latch(&mut self.frames, table, circuit, j, child)?;
        Ok(ways)
    }
}

/// The ways of a place that goes on in no frame.
fn stay(place: Place) -> Ways
    ensures { result ≡ record { onward = place.0; high = place.0 } }
{
    Ways {
        onward: place.0,
        high: place.0,
    }
}
