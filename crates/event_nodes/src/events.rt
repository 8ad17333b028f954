//! The event graph: an and-inverter graph over inputs at event nodes.

ghost use Rattle.std.specs.Prelude.{◌≡◌, ℕ, ◌+◌, ◌*◌, ◌^◌, ◌<◌, ◌≤◌, ◌&&◌, Bool, true, List, [], ◌∷◌, ◌++◌, length, map, slice_get, Some, All, IfOk, OnOk, OnErr};
ghost use Rattle.aig.specs.declared.node.Node.TheVariants.{Constant, Input};
ghost use Rattle.aig.specs.Graph.{Grows, IsLitOf, flip};
ghost use Rattle.aig.specs.Values.{value};
ghost use Rattle.aig.specs.Rules.{IsAndOf, IsCoverOf, cover_room};
ghost use Rattle.aig.specs.Builds.{HasOneLitAt, HasTreeValuesAt};
ghost use Rattle.aig.specs.Adds.{Adds};
ghost use Rattle.event_nodes.specs.Nodes.{IsEventGraph, IsChild, GrowsEvents};

mod parts;

use crate::cover_graph::CoverGraph;
use aig::Lit;
use flat_net::{Cover, NoMemory, PlaceTable};
use std::alloc::Global;
use std::marker::Model;

/// An and-inverter graph whose variables are inputs at event nodes. Event nodes are numbered as they come, the root
/// first; a node is known by its parent and the class that leads to it.
pub struct EventGraph {
    aig: CoverGraph,
    children: PlaceTable,
    places: PlaceTable,
}

/// It is let go by one call: an owner isn't taken apart field by field at each way out.
impl Drop for EventGraph {
    fn drop(self) {
        let EventGraph {
            aig: _,
            children: _,
            places: _,
        } = self;
    }
}

impl Model for EventGraph {
    ghost use Rattle.aig.specs.Adds.{Adds};
    ghost use Rattle.event_nodes.specs.Nodes.{EventGraphView, IsEventGraph};

    ghost Value = { EventGraphView };

    ghost view = { λ w. record { graph = w.aig; children = w.children; places = w.places } };

    ghost invariant = { λ w. IsEventGraph (record { graph = w.aig; children = w.children; places = w.places }) };
}

impl EventGraph {
    /// The graph with the constant and the root alone.
    pub fn new(alloc: Global) -> Result<EventGraph, NoMemory>
        ensures { IfOk result (λ w. w ≡ record { graph = Constant ∷ []; children = []; places = [] }) }
    {
        let aig = CoverGraph::new(alloc)?;
        aig.keeps();
        Ok(EventGraph {
            aig,
            children: PlaceTable::new(alloc),
            places: PlaceTable::new(alloc),
        })
    }

    /// Tells a proof what each event graph keeps. It does nothing.
    pub fn keeps(&self)
        ensures events { IsEventGraph self.now }
        ensures one { HasOneLitAt (List ℕ) self.now.graph }
        ensures values { HasTreeValuesAt (List ℕ) self.now.graph }
    {
        self.aig.keeps();
    }

    /// How many event nodes there are besides the root.
    pub fn nodes(&self) -> u32
        ensures { result ≡ length self.now.children }
    {
        self.children.len()
    }

    /// How many nodes the graph has.
    pub fn size(&self) -> u32
        ensures { result ≡ length self.now.graph }
    {
        self.aig.size()
    }

    /// How many variables there are.
    pub fn variables(&self) -> u32
        ensures { result ≡ length self.now.places }
    {
        self.places.len()
    }

    /// Whether there is room for so many nodes, event nodes and variables more.
    pub fn has_room(&self, more: u32) -> bool
        requires { more ≤ 5000000 }
        ensures nodes { result ≡ true → length self.now.graph + more < 2 ^ 30 }
        ensures children { result ≡ true → length self.now.children + more + 2 < 2 ^ 32 }
        ensures places { result ≡ true → length self.now.places + more < 2 ^ 31 }
    {
        let size = self.size();
        let nodes = self.nodes();
        let variables = self.variables();
        if size >= 1_073_741_824 - more {
            return false;
        }
        if nodes >= 4_294_967_290 - more {
            return false;
        }
        if variables >= 2_147_483_648 - more {
            return false;
        }
        true
    }

    /// The child of the node by the class. After `NoMemory` nothing has changed.
    pub fn child(&mut self, node: u32, class: u32) -> Result<u32, NoMemory>
        requires node { node ≤ length self.old.children }
        requires room { length self.old.children + 2 < 2 ^ 32 }
        ensures here { IfOk result (λ m. IsChild self.new.children node class m) }
        ensures grows { GrowsEvents self.old self.new }
        ensures adds { Adds (λ q. q ≡ (node, class)) self.old.children self.new.children }
        ensures few { length self.new.children ≤ length self.old.children + 1 }
        ensures same { self.new ≡ record self.old { children = self.new.children } }
        ensures err { OnErr result (self.new ≡ self.old) }
    {
        let entry = self.children.intern(node, class)?;
        self.children.keeps();
        Ok(entry + 1)
    }

    /// The variable of the input at the node. After `NoMemory` a variable may have been added.
    pub fn variable(&mut self, input: u32, node: u32) -> Result<Lit, NoMemory>
        requires node { node ≤ length self.old.children }
        requires nodes { length self.old.graph + 1 < 2 ^ 30 }
        requires places { length self.old.places + 1 < 2 ^ 32 }
        ensures here { IfOk result (λ x. (v : ℕ) × (slice_get self.new.places v ≡ Some (input, node)) × IsLitOf self.new.graph (Input v) x.0) }
        ensures within { IfOk result (λ x. x.0 < 2 * length self.new.graph) }
        ensures grows { GrowsEvents self.old self.new }
        ensures nodes { length self.new.graph ≤ length self.old.graph + 1 }
        ensures places { length self.new.places ≤ length self.old.places + 1 }
        ensures same { self.new.children ≡ self.old.children }
    {
        let variable = self.places.intern(input, node)?;
        self.places.keeps();
        let made = self.aig.input(variable);
        self.aig.keeps();
        made
    }

    /// The literal of the cover's function of the fan-ins. After `NoMemory` nodes may have been added.
    pub fn cover(&mut self, cover: &Cover, fanins: &[Lit]) -> Result<Lit, NoMemory>
        requires within { All (λ f. f.0 < 2 * length self.old.graph) fanins.now }
        requires width { length fanins.now ≡ cover.now.width }
        requires room { length self.old.graph + cover_room cover.now < 2 ^ 30 }
        ensures here { IfOk result (λ x. IsCoverOf self.new.graph cover.now (map (λ f. f.0) fanins.now) x.0) }
        ensures within { IfOk result (λ x. x.0 < 2 * length self.new.graph) }
        ensures grows { GrowsEvents self.old self.new }
        ensures few { length self.new.graph ≤ length self.old.graph + cover_room cover.now }
        ensures same { self.new ≡ record self.old { graph = self.new.graph } }
    {
        self.aig.keeps();
        let made = self.aig.cover(cover, fanins);
        self.aig.keeps();
        made
    }

    /// The literal of the and. After `NoMemory` nothing has changed.
    pub fn and(&mut self, l: Lit, r: Lit) -> Result<Lit, NoMemory>
        requires left { l.0 < 2 * length self.old.graph }
        requires right { r.0 < 2 * length self.old.graph }
        requires room { length self.old.graph + 1 < 2 ^ 30 }
        ensures here { IfOk result (λ x. IsAndOf self.new.graph l.0 r.0 x.0) }
        ensures within { IfOk result (λ x. x.0 < 2 * length self.new.graph) }
        ensures value { IfOk result (λ x. (a : ℕ → Bool) → value self.new.graph a x.0 ≡ (value self.old.graph a l.0 && value self.old.graph a r.0)) }
        ensures grows { GrowsEvents self.old self.new }
        ensures few { length self.new.graph ≤ length self.old.graph + 1 }
        ensures same { self.new ≡ record self.old { graph = self.new.graph } }
        ensures err { OnErr result (self.new ≡ self.old) }
    {
        let made = self.aig.and(l, r);
        self.aig.keeps();
        made
    }
}
