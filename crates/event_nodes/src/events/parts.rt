//! Parts of an event graph by their numbers.

ghost use Rattle.std.specs.Prelude.{◌≡◌, ◌+◌, ◌-◌, ◌^◌, ◌<◌, ◌≤◌, length, slice_get, Some, IfOk};
ghost use Rattle.event_nodes.specs.Nodes.{GrowsEvents};

use super::EventGraph;
use aig::Aig;
use flat_net::NoMemory;

impl EventGraph {
    /// The and-inverter graph.
    pub fn aig(&self) -> &Aig
        ensures { result.now ≡ self.now.graph }
    {
        self.aig.aig()
    }

    /// The input and the event node of a variable.
    pub fn place(&self, variable: u32) -> (u32, u32)
        requires { variable < length self.now.places }
        ensures { slice_get self.now.places variable ≡ Some result }
    {
        self.places.pair(variable)
    }

    /// The parent of an event node other than the root, and the class that leads from there to the node.
    pub fn step(&self, node: u32) -> (u32, u32)
        requires below_root { 0 < node }
        requires made { node ≤ length self.now.children }
        ensures { slice_get self.now.children (node - 1) ≡ Some result }
    {
        self.children.pair(node - 1)
    }

    /// The number of the variable that stands for the input at the node. After `NoMemory` nothing has changed.
    pub fn number(&mut self, input: u32, node: u32) -> Result<u32, NoMemory>
        requires node { node ≤ length self.old.children }
        requires places { length self.old.places + 1 < 2 ^ 32 }
        ensures here { IfOk result (λ v. slice_get self.new.places v ≡ Some (input, node)) }
        ensures grows { GrowsEvents self.old self.new }
        ensures places { length self.new.places ≤ length self.old.places + 1 }
        ensures same { self.new ≡ record self.old { places = self.new.places } }
    {
        let variable = self.places.intern(input, node)?;
        self.places.keeps();
        Ok(variable)
    }
}
