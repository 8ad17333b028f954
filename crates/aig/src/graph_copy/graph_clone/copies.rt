//! All nodes of a graph, made in a new one.

ghost use Rattle.std.specs.Prelude.{◌≡◌, [], ◌∷◌, ◌++◌, ◌+◌, ◌*◌, ◌^◌, ◌<◌, ◌≤◌, length, IfOk};
ghost use Rattle.aig.specs.Graph.{Grows};
ghost use Rattle.aig.specs.graph_copy.graph_clone.Twins.{AreTwins, twin_in};

use crate::{Aig, Lit, NoMemory, Node};
use std::alloc::Global;

/// The functions of a graph in a graph of their own.
#[derive(Drop)]
pub struct GraphCopy {
    pub aig: Aig,
    /// For each node of the graph its literal in the new one.
    pub lits: Vec<Lit>,
}

/// All functions of the graph in a new one, over the same variables. It has no more nodes than the graph.
pub fn copy_graph(alloc: Global, own: &Aig) -> Result<GraphCopy, NoMemory>
    ensures twins { IfOk result (λ c. AreTwins own.now c.aig c.lits.items) }
    ensures each { IfOk result (λ c. length c.lits.items ≡ length own.now) }
    ensures few { IfOk result (λ c. length c.aig ≤ length own.now) }
{
    own.keeps();
    let mut aig = Aig::new(alloc)?;
    aig.keeps();
    let mut lits = Vec::new(alloc);
    for n in 0..own.size() {
        let made = copy_node(&mut aig, own, n, lits.as_slice())?;
        lits.push(made)?;
    }
    Ok(GraphCopy { aig, lits })
}

/// The literal for a node, where those for the nodes before it are given.
fn copy_node(aig: &mut Aig, own: &Aig, n: u32, lits: &[Lit]) -> Result<Lit, NoMemory>
    requires node { n < length own.now }
    requires each { length lits.now ≡ n }
    requires twins { AreTwins own.now aig.old lits.now }
    requires room { length aig.old + 1 < 2 ^ 30 }
    ensures twins { IfOk result (λ x. AreTwins own.now aig.new (lits.now ++ x ∷ [])) }
    ensures grows { Grows aig.old aig.new }
    ensures few { length aig.new ≤ length aig.old + 1 }
    ensures first { n ≡ 0 → aig.new ≡ aig.old }
{
    own.keeps();
    aig.keeps();
    match own.node(n) {
        Node::Constant => Ok(Lit::FALSE),
        Node::Input(v) => {
            if v == u32::MAX {
                return Err(NoMemory);
            }
            let made = aig.input(v)?;
            aig.keeps();
            Ok(made)
        }
        Node::And(l, r) => {
            let made = aig.and(literal_for(lits, l), literal_for(lits, r))?;
            aig.keeps();
            Ok(made)
        }
    }
}

/// The literal for one of a graph, where those for the nodes are given.
pub fn literal_for(lits: &[Lit], l: Lit) -> Lit
    requires { l.0 < 2 * length lits.now }
    ensures { result ≡ twin_in lits.now l }
{
    let made = lits[l.node() as usize];
    if l.is_complement() {
        Aig::not(made)
    } else {
        made
    }
}
