//! The builder of one circuit's literals.

ghost use Rattle.std.specs.Prelude.{◌≡◌, ◌⊎◌, ℕ, ◌+◌, ◌*◌, ◌^◌, ◌<◌, ◌≤◌, [], length, slice_get, Some, None, All, Contains, IfOk, IfSome, OnOk};
ghost use Rattle.std.specs.List.{AllZip, sum_by};
ghost use Rattle.circuit_theory.specs.EventSizes.{Start};
ghost use Rattle.event_nodes.specs.Lit.{Lit};
ghost use Rattle.event_nodes.specs.flat_net.Weights.{gate_weight, weight_at};
ghost use Rattle.event_nodes.specs.Nodes.{EventGraphView, GrowsEvents};
ghost use Rattle.edbf_unfold.specs.declared.event_literals.event_walk.frames.Frame.{Frame};
ghost use Rattle.edbf_unfold.specs.declared.event_literals.event_walk.frames.Step.{Step};
ghost use Rattle.edbf_unfold.specs.event_literals.event_walk.Plan.{AreExpanded};
ghost use Rattle.edbf_unfold.specs.event_literals.event_walk.Ready.{IsPlan, frame_beside};
ghost use Rattle.edbf_unfold.specs.event_literals.event_walk.Walk.{IsCounting, IsRefused, IsRootOf, IsCountedOn};
ghost use Rattle.edbf_unfold.specs.event_literals.Known.{AreKnown, IsKnownIn, HasUnfolded, IsMet, IsReady, IsLater, HasGrown, IsInputLit, IsReadLit, IsGateLit};
ghost use Rattle.edbf_unfold.specs.event_literals.Built.{IsReadyFor, IsWalked};

use crate::event_literals::event_walk::{
    Counter, Driver, EventCircuit, EventGraph, EventUnfoldError, EventWalker, Frame, Lit, NoMemory,
    Place, PlaceTable, Signal, Step, Ways, beside, constant, gate_of, latch_of,
};
use aig::graph_copy::memo::Memo;
use std::alloc::Global;
use std::marker::Model;

/// A signal's literals in a frame and in the one beside it, and the places that both unfoldings visit, each with its ways.
pub struct Unfolding {
    pub lit: Lit,
    /// In the frame beside: with the latch as 1 where it is put as 0, and else the same.
    pub high: Lit,
    pub table: PlaceTable,
    pub ways: Vec<Ways>,
}

/// It is let go by one call: an owner isn't taken apart field by field at each way out.
impl Drop for Unfolding {
    fn drop(self) {
        let Unfolding {
            lit: _,
            high: _,
            table: _,
            ways: _,
        } = self;
    }
}

/// Makes the literals of signals of one circuit. Each signal in a frame, an event node with a latch that may be put there, gets its
/// literal once.
#[derive(Drop)]
pub struct EventBuilder<'a> {
    walker: EventWalker<'a>,
    memo: Memo,
}

impl<'a> Model for EventBuilder<'a> {
    ghost use Rattle.edbf_unfold.specs.event_literals.Known.{EventUnfolderView};

    ghost Value = { EventUnfolderView };

    ghost view = { λ u. record { circuit = u.walker.circuit; frames = u.walker.frames; memo = u.memo } };
}

impl<'a> EventBuilder<'a> {
    /// Nothing is unfolded yet. It takes no memory.
    pub fn new(alloc: Global, circuit: &'a EventCircuit) -> EventBuilder<'a>
        ensures begins { result ≡ record { circuit = circuit.now; frames = []; memo = [] } }
        ensures known { (w : EventGraphView) → AreKnown circuit.now w [] [] }
    {
        EventBuilder {
            walker: EventWalker::new(alloc, circuit),
            memo: Memo::new(alloc),
        }
    }

    /// The circuit.
    pub fn circuit(&self) -> &'a EventCircuit
        ensures { result.now ≡ self.now.circuit }
    {
        self.walker.circuit()
    }

    /// The frame with this number.
    pub fn frame(&self, id: u32) -> Frame
        requires { id < length self.now.frames }
        ensures { slice_get self.now.frames id ≡ Some result }
    {
        self.walker.frame(id)
    }

    /// The literal of a place that was met.
    pub fn met(&self, place: Place) -> Lit
        requires { IsMet self.now.memo place }
        ensures { Contains self.now.memo (place, result) }
    {
        self.memo.met(place)
    }

    /// The literals of the signal in the frame, at the root, and in the one beside it, and the places that both unfoldings visit. At most
    /// five nodes are added to the graph for each unit of what was counted. `TooManyEvents` comes where more than 10,000 event nodes are
    /// reached by then, and `TooLarge` where what was counted weighs more than 2,000,000.
    pub fn unfold_in(
        &mut self,
        alloc: Global,
        events: &mut EventGraph,
        counter: &mut Counter,
        s: Signal,
        frame: Frame,
    ) -> Result<Unfolding, EventUnfoldError>
        requires signal { s.0 < length self.old.circuit.net.drivers }
        requires root { frame.node ≡ 0 }
        requires known { AreKnown self.old.circuit events.old self.old.frames self.old.memo }
        requires room { IsReadyFor self.old events.old counter.old }
        ensures known { OnOk result (AreKnown self.new.circuit events.new self.new.frames self.new.memo) }
        ensures here { IfOk result (λ r. IsKnownIn self.new.circuit events.new frame s.0 r.lit.0 × IsKnownIn self.new.circuit events.new (frame_beside frame) s.0 r.high.0) }
        ensures walked { IfOk result (λ r. IsWalked self.new events.new frame s.0 counter.new.places (5 * counter.new.weight) r.table r.ways.items) }
        ensures unfolded { OnOk result (HasUnfolded self.old self.new events.old events.new (5 * counter.new.weight + 1) × IsCountedOn self.old.circuit.net events.new.children counter.old counter.new) }
        ensures counting { GrowsEvents events.old events.new × ((x : Start ℕ) → IsRootOf frame s.0 x → IsCounting self.old.circuit x events.old.children events.new.children counter.old counter.new) }
        ensures refused { IsRefused self.old.circuit.net events.new.children counter.new.places result }
    {
        events.keeps();
        let root = self.walker.intern(frame)?;
        let put = beside(frame.put);
        let node = frame.node;
        let high = self.walker.intern(Frame { node, put })?;
        let (table, ways) = self
            .walker
            .visited(alloc, events, counter, (root, s.0), (high, s.0))?;
        self.build_all(alloc, events, &table, ways.as_slice())?;
        Ok(Unfolding {
            lit: self.met((root, s.0)),
            high: self.met((high, s.0)),
            table,
            ways,
        })
    }

    /// Unfolds all places of a walk to its end, each with its ways.
    fn build_all(
        &mut self,
        alloc: Global,
        events: &mut EventGraph,
        table: &PlaceTable,
        ways: &[Ways],
    ) -> Result<(), NoMemory>
        requires expanded { AreExpanded self.old.circuit self.old.frames events.old.children table.now ways.now }
        requires known { AreKnown self.old.circuit events.old self.old.frames self.old.memo }
        requires nodes { length events.old.graph + sum_by (λ p. weight_at self.old.circuit.net p.1) table.now < 2 ^ 30 }
        requires places { length events.old.places + sum_by (λ p. weight_at self.old.circuit.net p.1) table.now < 2 ^ 31 }
        ensures known { AreKnown self.new.circuit events.new self.new.frames self.new.memo }
        ensures met { OnOk result ((p : ℕ × ℕ) → Contains table.now p → IsMet self.new.memo p) }
        ensures later { IsLater self.old self.new events.old events.new (sum_by (λ p. weight_at self.old.circuit.net p.1) table.now) }
    {
        let circuit = self.circuit();
        circuit.keeps();
        events.keeps();
        let plan = self.walker.plan(alloc, events.nodes(), table, ways)?;
        self.build(alloc, events, plan.as_slice())
    }

    /// Unfolds all steps of a plan.
    fn build(
        &mut self,
        alloc: Global,
        events: &mut EventGraph,
        plan: &[Step],
    ) -> Result<(), NoMemory>
        requires plan { IsPlan self.old.circuit self.old.frames events.old.children plan.now }
        requires known { AreKnown self.old.circuit events.old self.old.frames self.old.memo }
        requires nodes { length events.old.graph + sum_by (λ p. weight_at self.old.circuit.net p.signal) plan.now < 2 ^ 30 }
        requires places { length events.old.places + sum_by (λ p. weight_at self.old.circuit.net p.signal) plan.now < 2 ^ 31 }
        ensures known { AreKnown self.new.circuit events.new self.new.frames self.new.memo }
        ensures met { OnOk result ((p : Step) → Contains plan.now p → IsMet self.new.memo (p.frame, p.signal)) }
        ensures later { IsLater self.old self.new events.old events.new (sum_by (λ p. weight_at self.old.circuit.net p.signal) plan.now) }
    {
        for step in plan {
            self.build_step(alloc, events, *step)?;
        }
        Ok(())
    }

    /// Unfolds a step that can be done, if its place wasn't met before.
    fn build_step(
        &mut self,
        alloc: Global,
        events: &mut EventGraph,
        step: Step,
    ) -> Result<(), NoMemory>
        requires ready { IsReady self.old events.old step }
        requires known { AreKnown self.old.circuit events.old self.old.frames self.old.memo }
        requires nodes { length events.old.graph + weight_at self.old.circuit.net step.signal < 2 ^ 30 }
        requires places { length events.old.places + 1 < 2 ^ 32 }
        ensures known { AreKnown self.new.circuit events.new self.new.frames self.new.memo }
        ensures met { OnOk result (IsMet self.new.memo (step.frame, step.signal)) }
        ensures later { IsLater self.old self.new events.old events.new (weight_at self.old.circuit.net step.signal) }
    {
        events.keeps();
        if let Some(_) = self.memo.get((step.frame, step.signal)) {
            return Ok(());
        }
        let lit = self.literal(alloc, events, step)?;
        self.memo.put((step.frame, step.signal), lit)
    }

    /// The literal of a step that can be done.
    fn literal(&self, alloc: Global, events: &mut EventGraph, step: Step) -> Result<Lit, NoMemory>
        requires ready { IsReady self.now events.old step }
        requires known { AreKnown self.now.circuit events.old self.now.frames self.now.memo }
        requires nodes { length events.old.graph + weight_at self.now.circuit.net step.signal < 2 ^ 30 }
        requires places { length events.old.places + 1 < 2 ^ 32 }
        ensures known { IfOk result (λ x. (f : Frame) → slice_get self.now.frames step.frame ≡ Some f → IsKnownIn self.now.circuit events.new f step.signal x.0) }
        ensures grown { HasGrown events.old events.new (weight_at self.now.circuit.net step.signal) }
    {
        let circuit = self.circuit();
        circuit.keeps();
        events.keeps();
        let frame = self.frame(step.frame);
        match circuit.net().driver(Signal(step.signal)) {
            Driver::Input(i) => self.input_literal(events, frame.node, i),
            Driver::Gate(j) => self.gate_literal(alloc, events, step, j),
            Driver::Latch(j) => match constant(frame.put, step.signal) {
                Some(lit) => Ok(lit),
                None => Ok(self.met((step.onward, latch_of(circuit.net(), j).next.0))),
            },
        }
    }

    /// The variable of the input with this position at the node.
    fn input_literal(&self, events: &mut EventGraph, node: u32, i: u32) -> Result<Lit, NoMemory>
        requires input { i < length self.now.circuit.order }
        requires node { node ≤ length events.old.children }
        requires nodes { length events.old.graph + 1 < 2 ^ 30 }
        requires places { length events.old.places + 1 < 2 ^ 32 }
        ensures here { IfOk result (λ x. IsInputLit self.now.circuit i node events.new x.0) }
        ensures grown { HasGrown events.old events.new 1 }
    {
        let number = self.circuit().number(i);
        events.variable(number, node)
    }

    /// The cover of the gate with this position of literals that were met in the step's frame, or in the one onward.
    fn gate_literal(
        &self,
        alloc: Global,
        events: &mut EventGraph,
        step: Step,
        j: u32,
    ) -> Result<Lit, NoMemory>
        requires gate { j < length self.now.circuit.net.gates }
        requires met { IfSome (slice_get self.now.circuit.net.gates j) (λ g. All (λ f. IsMet self.now.memo (step.frame, f.0) ⊎ IsMet self.now.memo (step.onward, f.0)) g.fanins) }
        requires within { (p : ℕ × ℕ) (x : Lit) → Contains self.now.memo (p, x) → x.0 < 2 * length events.old.graph }
        requires nodes { length events.old.graph + gate_weight self.now.circuit.net.covers (slice_get self.now.circuit.net.gates j) < 2 ^ 30 }
        ensures here { IfOk result (λ x. IsGateLit self.now step.frame step.onward j events.new.graph x.0) }
        ensures grown { HasGrown events.old events.new (gate_weight self.now.circuit.net.covers (slice_get self.now.circuit.net.gates j)) }
    {
        let circuit = self.circuit();
        circuit.keeps();
        let net = circuit.net();
        let gate = gate_of(net, j);
        let lits = self.fanin_literals(alloc, step, gate.fanins.as_slice())?;
        events.cover(net.cover(gate.cover), lits.as_slice())
    }

    /// The literals of the fan-ins, which were met in the step's frame or in the one onward.
    fn fanin_literals(
        &self,
        alloc: Global,
        step: Step,
        fanins: &[Signal],
    ) -> Result<Vec<Lit>, NoMemory>
        requires { All (λ f. IsMet self.now.memo (step.frame, f.0) ⊎ IsMet self.now.memo (step.onward, f.0)) fanins.now }
        ensures { IfOk result (λ lits. AllZip (λ f y. IsReadLit self.now.memo step.frame step.onward f.0 y) fanins.now lits.items) }
    {
        let mut lits = Vec::with_capacity(alloc, fanins.len())?;
        for fanin in fanins {
            lits.push(self.met_in(step, *fanin))?;
        }
        Ok(lits)
    }

    /// The literal of a signal that was met in the step's frame or in the one onward.
    fn met_in(&self, step: Step, fanin: Signal) -> Lit
        requires { IsMet self.now.memo (step.frame, fanin.0) ⊎ IsMet self.now.memo (step.onward, fanin.0) }
        ensures { IsReadLit self.now.memo step.frame step.onward fanin.0 result }
    {
        match self.memo.get((step.frame, fanin.0)) {
            Some(lit) => lit,
            None => self.met((step.onward, fanin.0)),
        }
    }
}
