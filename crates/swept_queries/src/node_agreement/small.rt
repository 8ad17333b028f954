//! Small graphs that stand for a part of a graph. Their variables are nodes of that graph.

ghost use Rattle.std.specs.Prelude.{◌≡◌, ℕ, ◌+◌, ◌*◌, ◌/◌, ◌^◌, ◌<◌, ◌≤◌, List, length, IfOk, OnOk, IfSome, slice_get, Some};
ghost use Rattle.aig.specs.declared.node.Node.{Node};
ghost use Rattle.aig.specs.Values.{KeepsValues};
ghost use Rattle.swept_queries.specs.node_agreement.Standing.{StandsFor, AreLocal, by_nodes};

use crate::node_agreement::signs::{signed, zero};
use aig::lane_eval::root_classes::{Aig, Lit, NoMemory, Node};
use std::alloc::Global;

/// The most nodes of a small graph.
pub(crate) const MOST: u32 = 1 << 29;

/// A small graph, and its literals of the first of some nodes.
#[derive(Drop)]
pub(crate) struct Small {
    pub graph: Aig,
    pub lits: Vec<Lit>,
}

/// The small graph of these nodes. One whose operands don't stand before it becomes a variable.
pub(crate) fn small_graph(alloc: Global, graph: &Aig, numbers: &[u32]) -> Result<Small, NoMemory>
    ensures { IfOk result (λ s. AreLocal graph.now numbers.now s.graph s.lits.items) }
{
    let mut small = Small {
        graph: Aig::new(alloc)?,
        lits: Vec::new(alloc),
    };
    for i in 0..numbers.len() {
        if numbers[i] >= graph.size() || small.graph.size() >= MOST {
            break;
        }
        small.put(graph, numbers, numbers[i])?;
    }
    Ok(small)
}

impl Small {
    /// Puts the literal for this node behind the others.
    fn put(&mut self, graph: &Aig, numbers: &[u32], n: u32) -> Result<(), NoMemory>
        requires node { n < length graph.now }
        requires room { length self.old.graph + 1 < 2 ^ 30 }
        requires place { slice_get numbers.now (length self.old.lits.items) ≡ Some n }
        requires local { AreLocal graph.now numbers.now self.old.graph self.old.lits.items }
        ensures local { OnOk result (AreLocal graph.now numbers.now self.new.graph self.new.lits.items) }
        ensures more { OnOk result (length self.new.lits.items ≡ length self.old.lits.items + 1) }
    {
        let lit = put_node(&mut self.graph, graph, numbers, self.lits.as_slice(), n)?;
        self.lits.push(lit)?;
        Ok(())
    }
}

/// The literal for this node: the and of its operands' where they have some, and else a variable.
fn put_node(
    small: &mut Aig,
    graph: &Aig,
    numbers: &[u32],
    lits: &[Lit],
    n: u32,
) -> Result<Lit, NoMemory>
    requires node { n < length graph.now }
    requires room { length small.old + 1 < 2 ^ 30 }
    requires local { AreLocal graph.now numbers.now small.old lits.now }
    ensures stands { IfOk result (λ y. StandsFor (by_nodes graph.now) graph.now small.new (2 * n) y.0) }
    ensures older { KeepsValues small.old small.new }
    ensures more { length small.old ≤ length small.new }
{
    graph.keeps();
    match graph.node(n) {
        Node::Constant => Ok(zero(small)),
        Node::Input(_) => small.input(n),
        Node::And(l, r) => match (find(numbers, lits, l), find(numbers, lits, r)) {
            (Some(s), Some(t)) => small.and(s, t),
            _ => small.input(n),
        },
    }
}

/// The literal of the node whose number has a place before so many literals, or its complement.
pub(crate) fn find(numbers: &[u32], lits: &[Lit], l: Lit) -> Option<Lit>
    ensures { IfSome result (λ y. (g small : List Node) → AreLocal g numbers.now small lits.now → StandsFor (by_nodes g) g small l.0 y.0) }
{
    let node = l.node();
    match numbers.binary_search(&node) {
        Ok(p) => {
            if p < lits.len() && p < numbers.len() && numbers[p] == node {
                Some(signed(lits[p], l))
            } else {
                None
            }
        }
        Err(_) => None,
    }
}
