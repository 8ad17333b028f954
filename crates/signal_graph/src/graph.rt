//! The readings of all signals of a net.

ghost use Rattle.std.specs.Prelude.{◌≡◌, length, IfOk};
ghost use Rattle.signal_graph.specs.inner_cone.circuit_theory.Mode.{Mode};
ghost use Rattle.signal_graph.specs.inner_cone.latch_cone.Cones.{MarksEnabled};
ghost use Rattle.signal_graph.specs.Graph.{AreNodes, IsGraphOf, IsGraphIn};

use crate::inner_cone::{Bits, LatchAt, Net, NoMemory};
use crate::nodes::{Node, copy_latches, nodes_of};
use std::alloc::Global;
use std::marker::Model;

/// The readings of a net's signals, and its latches. The edges of the latch graph are ways through these readings; a skipped latch
/// reads what leads to the other latches of its cone, and so has no edge to itself.
pub struct SignalGraph {
    nodes: Vec<Node>,
    latches: Vec<LatchAt>,
    skipped: Vec<bool>,
}

/// It is let go by one call: an owner isn't taken apart field by field at each way out.
impl Drop for SignalGraph {
    fn drop(self) {
        let SignalGraph {
            nodes: _,
            latches: _,
            skipped: _,
        } = self;
    }
}

impl Model for SignalGraph {
    ghost use Rattle.signal_graph.specs.Graph.{GraphView, AreNodes};

    ghost Value = { GraphView };

    ghost view = { λ g. record { nodes = g.nodes.items; latches = g.latches.items; skipped = g.skipped.items } };

    ghost invariant = { λ g. AreNodes g.nodes.items g.latches.items };
}

impl SignalGraph {
    /// The readings of the net, without the self-edges of the latches whose bits are set. There is one bit for each latch.
    pub fn new(alloc: Global, net: &Net, skip_self: &Bits) -> Result<SignalGraph, NoMemory>
        requires { length skip_self.now ≡ length net.now.latches }
        ensures graph { IfOk result (IsGraphOf net.now) }
        ensures skipped { IfOk result (λ graph. graph.skipped ≡ skip_self.now) }
        ensures in_mode { (mode : Mode) → MarksEnabled mode net.now skip_self.now → IfOk result (IsGraphIn mode net.now) }
    {
        net.keeps();
        let bits = skip_self.as_slice();
        let nodes = nodes_of(alloc, net, bits)?;
        let latches = copy_latches(alloc, net.latches())?;
        let skipped = Vec::from_slice(alloc, bits)?;
        Ok(SignalGraph {
            nodes,
            latches,
            skipped,
        })
    }

    /// Tells a proof what each graph keeps. It does nothing.
    pub fn keeps(&self)
        ensures { AreNodes self.now.nodes self.now.latches }
    {
        let _ = &self.nodes;
    }

    /// For each signal of the net what it reads.
    pub fn nodes(&self) -> &[Node]
        ensures { result.now ≡ self.now.nodes }
    {
        self.nodes.as_slice()
    }

    /// The latches of the net.
    pub fn latches(&self) -> &[LatchAt]
        ensures { result.now ≡ self.now.latches }
    {
        self.latches.as_slice()
    }
}
