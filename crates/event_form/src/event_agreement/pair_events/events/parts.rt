//! What is read of the event functions of two circuits.

ghost use Rattle.std.specs.Prelude.{◌≡◌, ◌*◌, ◌<◌, ◌≤◌, length, reverse, slice_get, Some, IfOk};
ghost use Rattle.class_search.specs.aig.Rules.{IsAndOf};
ghost use Rattle.class_search.specs.flat_net.LatchAt.{LatchAt};
ghost use Rattle.event_nodes.specs.Nodes.{GrowsEvents, path_of};
ghost use Rattle.class_search.specs.event_variables.Variables.{AreInOrder, IsMergeOf};
ghost use Rattle.event_form.specs.event_agreement.pair_events.View.{circuit_at, side_of_both, signal_at};

use super::Events;
use crate::event_agreement::{
    Aig, EventCircuit, EventGraph, Ids, Lit, NoMemory, Side, merge_variables, node_path,
};
use std::alloc::Global;

impl Events {
    /// The graph of the functions.
    pub fn aig(&self) -> &Aig
        ensures { result.now ≡ self.now.events.graph }
    {
        self.graph.aig()
    }

    /// The event graph.
    pub fn graph(&self) -> &EventGraph
        ensures { result.now ≡ self.now.events }
    {
        &self.graph
    }

    /// How many classes there are besides `always`.
    pub fn classes(&self) -> u32
        ensures { result ≡ self.now.count }
    {
        self.classes
    }

    /// One of the circuits.
    pub fn circuit(&self, side: Side) -> &EventCircuit
        ensures { result.now ≡ circuit_at side self.now }
    {
        match side {
            Side::A => &self.left,
            Side::B => &self.right,
        }
    }

    /// The class of a circuit's latch with this position.
    pub fn class_of(&self, side: Side, latch: u32) -> u32
        requires { latch < length (circuit_at side self.now).net.latches }
        ensures { (l : LatchAt) → slice_get (circuit_at side self.now).net.latches latch ≡ Some l → (side_of_both self.now).class (signal_at side l.out.0) ≡ result }
    {
        match side {
            Side::A => self.left.class(latch),
            Side::B => self.right.class(latch),
        }
    }

    /// The input and the event node of a variable.
    pub fn place(&self, variable: u32) -> (u32, u32)
        requires { variable < length self.now.events.places }
        ensures { slice_get self.now.events.places variable ≡ Some result }
    {
        self.graph.place(variable)
    }

    /// The steps from the root to the event node, each a class.
    pub fn path(&self, alloc: Global, node: u32) -> Result<Vec<u32>, NoMemory>
        requires { node ≤ length self.now.events.children }
        ensures { IfOk result (λ path. path.items ≡ reverse (path_of self.now.events.children node)) }
    {
        node_path(alloc, &self.graph, node)
    }

    /// The variables that one of both lists has, in their order: longer paths first, then by path in the order of class numbers, then by
    /// input. Each list is in this order.
    pub fn merge(&self, alloc: Global, left: &[u32], right: &[u32]) -> Result<Ids, NoMemory>
        requires left { AreInOrder self.now.events left.now }
        requires right { AreInOrder self.now.events right.now }
        ensures { IfOk result (IsMergeOf self.now.events left.now right.now) }
    {
        merge_variables(alloc, &self.graph, left, right)
    }

    /// The literal of the and, as the care of a pair. After `NoMemory` nothing has changed; it comes also where the graph would get 2^30
    /// nodes.
    pub fn and(&mut self, l: Lit, r: Lit) -> Result<Lit, NoMemory>
        requires left { l.0 < 2 * length self.old.events.graph }
        requires right { r.0 < 2 * length self.old.events.graph }
        ensures here { IfOk result (λ x. IsAndOf self.new.events.graph l.0 r.0 x.0) }
        ensures within { IfOk result (λ x. x.0 < 2 * length self.new.events.graph) }
        ensures grows { GrowsEvents self.old.events self.new.events }
        ensures same { self.new ≡ record self.old { events = record self.old.events { graph = self.new.events.graph } } }
    {
        if !self.graph.has_room(1) {
            return Err(NoMemory);
        }
        self.graph.and(l, r)
    }
}
