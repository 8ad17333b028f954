//! The latch graph.

ghost use Rattle.std.specs.Prelude.{◌≡◌, ℕ, ◌<◌, length, map, slice_get, Some, All, IfOk, IfSome, IfNone};
ghost use Rattle.circuit_theory.specs.Depth.{IsDepth, HasNoDepth, HasCycle, IsCycle, BeginsWithLeast};
ghost use Rattle.circuit_theory.specs.declared.Mode.{Mode};
ghost use Rattle.circuit_theory.specs.declared.Mode.TheVariants.{Plain};
ghost use Rattle.signal_graph.specs.inner_cone.latch_cone.Cones.{MarksEnabled};
ghost use Rattle.signal_graph.specs.flat_net.View.{NetView, circuit_of};
ghost use Rattle.signal_graph.specs.Graph.{AreNodes, IsGraphOf, IsGraphIn, SkippedBy, marked_names, signals_at};
ghost use Rattle.latch_graph.specs.Settling.{IsSettled};
ghost use Rattle.signal_graph.specs.unfolding_weight.Weight.{Weighs};

use crate::rounds::find_cycle;
use crate::states::{State, all_new, settled_from};
use signal_graph::unfolding_weight::{Node, SignalGraph, Weight, weigh};
use signal_graph::{Bits, Ids, LatchAt, Net, NoMemory, Signal, Signals};
use std::alloc::Global;
use std::marker::Model;

/// The latch graph of a net: it has an edge from a latch to each latch whose next value depends on it through gates,
/// but no edge from a skipped latch to itself. The edges aren't written out; they are ways through the signals, and a
/// skipped latch reads what leads to the other latches of its cone. A contract sees what each signal reads, the latches, and
/// which of them are skipped.
pub struct LatchGraph {
    graph: SignalGraph,
    states: Vec<State>,
}

/// It is let go by one call: an owner isn't taken apart field by field at each way out.
impl Drop for LatchGraph {
    fn drop(self) {
        let LatchGraph {
            graph: _,
            states: _,
        } = self;
    }
}

impl Model for LatchGraph {
    ghost use Rattle.signal_graph.specs.Graph.{GraphView};
    ghost use Rattle.latch_graph.specs.Kept.{IsKept};

    ghost Value = { GraphView };

    ghost view = { λ g. g.graph };

    ghost invariant = { λ g. IsKept g.graph.nodes g.states.items };
}

impl LatchGraph {
    /// The graph of the net, without the self-edges of the latches whose bits are set. There is one bit for each latch.
    pub fn new(alloc: Global, net: &Net, skip_self: &Bits) -> Result<LatchGraph, NoMemory>
        requires { length skip_self.now ≡ length net.now.latches }
        ensures graph { IfOk result (IsGraphOf net.now) }
        ensures skipped { IfOk result (λ graph. graph.skipped ≡ skip_self.now) }
        ensures in_mode { (mode : Mode) → MarksEnabled mode net.now skip_self.now → IfOk result (IsGraphIn mode net.now) }
    {
        let graph = SignalGraph::new(alloc, net, skip_self)?;
        graph.keeps();
        let states = all_new(alloc, graph.nodes().len())?;
        let states = settled_from(alloc, graph.nodes(), states)?;
        Ok(LatchGraph { graph, states })
    }

    /// Tells a proof what each graph keeps. It does nothing.
    pub fn keeps(&self)
        ensures { AreNodes self.now.nodes self.now.latches }
    {
        self.graph.keeps();
    }

    /// The readings alone.
    pub fn signals(&self) -> &SignalGraph
        ensures { result.now ≡ self.now }
    {
        &self.graph
    }

    /// For each signal of the net what it reads.
    pub fn nodes(&self) -> &[Node]
        ensures { result.now ≡ self.now.nodes }
    {
        self.graph.nodes()
    }

    /// The latches of the net.
    pub fn latches(&self) -> &[LatchAt]
        ensures { result.now ≡ self.now.latches }
    {
        self.graph.latches()
    }

    fn states(&self) -> &[State]
        ensures settled { IsSettled self.now.nodes result.now }
        ensures whole { (s : ℕ) → slice_get result.now s ≡ Some State.Removed → ⊥ }
    {
        self.states.as_slice()
    }

    /// The sequential depth of the signal: the greatest number of latches on a way back. None exactly where the cone
    /// leads back to a cycle of latches, so that there is no greatest number. It takes no memory.
    pub fn depth(&self, s: Signal) -> Option<u32>
        requires { s.0 < length self.now.nodes }
        ensures depth { IfSome result (λ d. (n : NetView) → IsGraphOf n self.now → IsDepth (circuit_of n) (SkippedBy self.now) s.0 d) }
        ensures none { IfNone result ((n : NetView) → IsGraphOf n self.now → HasNoDepth (circuit_of n) (SkippedBy self.now) s.0) }
    {
        let states = self.states();
        states[s.0 as usize].known()
    }

    /// A cycle of the graph without the removed latches, as latch positions: each latch is read by the next, the last
    /// by the first, and no latch of the cycle has a name before the first one's in byte order. None exactly where no
    /// cycle is left. There is one bit for each latch.
    pub fn cycle(&self, alloc: Global, removed: &Bits) -> Result<Option<Ids>, NoMemory>
        requires { length removed.now ≡ length self.now.latches }
        ensures none { IfOk result (λ found. IfNone found ((n : NetView) → IsGraphOf n self.now → HasCycle (circuit_of n) (SkippedBy self.now) (marked_names self.now.latches removed.now) → ⊥)) }
        ensures within { IfOk result (λ found. IfSome found (All (λ j. j < length self.now.latches))) }
        ensures cycle { IfOk result (λ found. IfSome found (λ ids. (n : NetView) → IsGraphOf n self.now → IsCycle (circuit_of n) (SkippedBy self.now) (marked_names self.now.latches removed.now) (signals_at self.now.latches ids))) }
        ensures least { IfOk result (λ found. IfSome found (λ ids. (n : NetView) → IsGraphOf n self.now → BeginsWithLeast (circuit_of n) (signals_at self.now.latches ids))) }
    {
        self.keeps();
        let found = find_cycle(alloc, self.nodes(), self.latches(), removed.as_slice())?;
        Ok(found)
    }

    /// The weight of the unfoldings of these signals: the sum over the distinct pairs of a signal and a number of
    /// cycles that they visit, where an input or a latch counts 1 and a gate 1 + rows * (fan-ins + 1), a cover without
    /// rows as one row. `Over` comes exactly where it is above the cap.
    pub fn weight(
        &self,
        alloc: Global,
        net: &Net,
        outputs: &Signals,
        cap: u32,
    ) -> Result<Weight, NoMemory>
        requires graph { IsGraphIn Plain net.now self.now }
        requires within { All (λ s. s.0 < length net.now.drivers) outputs.now }
        ensures { IfOk result (Weighs (circuit_of net.now) (map (λ s. s.0) outputs.now) cap) }
    {
        weigh(alloc, self.nodes(), net, outputs.as_slice(), cap)
    }
}
