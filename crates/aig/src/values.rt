//! Values of literals under an assignment.

ghost use Rattle.std.specs.Prelude.{◌≡◌, ◌*◌, ◌<◌, ◌≤◌, [], ◌∷◌, length};
ghost use Rattle.aig.specs.Graph.{vars_of, IsOrdered, IsAbove};
ghost use Rattle.aig.specs.Values as meaning;

use crate::graph::Aig;
use crate::node::{Lit, Node};

/// Fills the scratch with the value of each of these nodes, whose operands are literals of earlier places in the list.
/// Place v of the assignment is variable v's bit.
pub fn node_bits(nodes: &[Node], assignment: &[bool], scratch: &mut [bool])
    requires ordered { IsOrdered nodes.now }
    requires covers { vars_of nodes.now ≤ length assignment.now }
    requires places { length scratch.old ≡ length nodes.now }
    ensures { scratch.new ≡ meaning.node_bits nodes.now (meaning.assigned assignment.now) }
{
    for n in 0..nodes.len() {
        scratch[n] = node_bit(nodes[n], assignment, &scratch[..n]);
    }
}

/// The bit of a node whose operands have these bits.
fn node_bit(node: Node, assignment: &[bool], bits: &[bool]) -> bool
    requires above { IsAbove (length bits.now) node }
    requires covers { vars_of (node ∷ []) ≤ length assignment.now }
    ensures { result ≡ meaning.node_bit (meaning.assigned assignment.now) bits.now node }
{
    match node {
        Node::Constant => false,
        Node::Input(v) => assignment[v as usize],
        Node::And(l, r) => lit_bit(bits, l) && lit_bit(bits, r),
    }
}

#[tactic(auto, unfolding(crate::specs::Values::lit_bit))]
fn lit_bit(bits: &[bool], l: Lit) -> bool
    requires { l.0 < 2 * length bits.now }
    ensures { result ≡ meaning.lit_bit bits.now l.0 }
{
    let bit = bits[l.node() as usize];
    if l.is_complement() { !bit } else { bit }
}

impl Aig {
    /// The literal's value under an assignment. The literal is one of the graph: less than twice the number of nodes. The
    /// assignment has at least `vars()` bits, at place v that of variable v. The scratch has `size()` places, whatever
    /// they hold; then place n has the value of node n. It walks all nodes once, and takes no memory.
    #[tactic(auto, unfolding(crate::specs::Values::value))]
    pub fn value(&self, l: Lit, assignment: &[bool], scratch: &mut [bool]) -> bool
        requires within { l.0 < 2 * length self.now }
        requires covers { vars_of self.now ≤ length assignment.now }
        requires places { length scratch.old ≡ length self.now }
        ensures value { result ≡ meaning.value self.now (meaning.assigned assignment.now) l.0 }
        ensures scratch { scratch.new ≡ meaning.node_bits self.now (meaning.assigned assignment.now) }
    {
        node_bits(self.nodes(), assignment, scratch);
        lit_bit(scratch, l)
    }
}
