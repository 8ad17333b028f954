//! The cone of some literals.

ghost use Rattle.std.specs.Prelude.{◌≡◌, ℕ, ◌+◌, ◌*◌, ◌/◌, ◌^◌, ◌<◌, ◌≤◌, Bool, List, map, length, slice_get, Some, Contains, All, IfOk, OnOk};
ghost use Rattle.aig.specs.Graph.{IsOrdered, IsGraph};
ghost use Rattle.aig.specs.Values.{value, node_bits};
ghost use Rattle.aig.specs.Cone.{IsConeOf, IsClosed, IsPartOf, IsPlacedLit, IsPlacedNode, IsWalk, HasOperands, Reads, with_number};
ghost use Rattle.std.specs.List.Sorted.{IsStrictlyIncreasing};

use crate::graph::Aig;
use crate::node::{Lit, Node};
use base_tables::UniqueTable;
use sec_base::{Ids, NoMemory};
use std::alloc::Global;

impl Aig {
    /// The nodes that are reached from the roots, increasing. It walks no other node.
    pub fn cone(&self, alloc: Global, roots: &[Lit]) -> Result<Ids, NoMemory>
        requires { All (λ l. l.0 < 2 * length self.now) roots.now }
        ensures cone { IfOk result (λ nodes. IsConeOf self.now (map (λ l. l.0) roots.now) nodes) }
        ensures closed { IfOk result (λ nodes. IsClosed self.now nodes) }
    {
        let nodes = self.nodes();
        let seen = reached(alloc, nodes, roots)?;
        let mut cone = Vec::from_slice(alloc, seen.as_slice())?;
        cone.sort()?;
        Ok(Ids::from_vec(cone))
    }

    /// The nodes of a cone, each with its operands as literals of places in the cone.
    pub fn part(&self, alloc: Global, cone: &[u32]) -> Result<Vec<Node>, NoMemory>
        requires { IsClosed self.now cone.now }
        ensures part { IfOk result (λ part. IsPartOf self.now cone.now part.items) }
        ensures ordered { IfOk result (λ part. IsOrdered part.items) }
        ensures bits { IfOk result (λ part. (a : ℕ → Bool) → node_bits part.items a ≡ map (λ n. value self.now a (2 * n)) cone.now) }
    {
        let nodes = self.nodes();
        let mut part = Vec::new(alloc);
        for k in 0..cone.len() {
            let node = placed(cone, nodes[cone[k] as usize]);
            part.push(node)?;
        }
        Ok(part)
    }
}

/// The nodes that are reached from the roots, each once.
fn reached(alloc: Global, nodes: &[Node], roots: &[Lit]) -> Result<UniqueTable<u32>, NoMemory>
    requires graph { IsGraph nodes.now }
    requires within { All (λ l. l.0 < 2 * length nodes.now) roots.now }
    ensures { IfOk result (λ seen. IsWalk nodes.now (map (λ l. l.0) roots.now) seen (length seen)) }
{
    let mut seen = UniqueTable::new(alloc, u32::MAX);
    for i in 0..roots.len() {
        see(&mut seen, roots[i].node())?;
    }
    walk(nodes, &mut seen)?;
    Ok(seen)
}

/// Puts the nodes that are reached from those that were seen behind them.
fn walk(nodes: &[Node], seen: &mut UniqueTable<u32>) -> Result<(), NoMemory>
    requires graph { IsGraph nodes.now }
    requires begun { (roots : List ℕ) × IsWalk nodes.now roots seen.old 0 }
    ensures { OnOk result ((roots : List ℕ) → IsWalk nodes.now roots seen.old 0 → IsWalk nodes.now roots seen.new (length seen.new)) }
{
    let mut at = 0;
    while at < seen.len() {
        let number = seen.key(at);
        see_operands(seen, nodes[number as usize])?;
        at += 1;
    }
    Ok(())
}

/// Puts the nodes that this node reads behind those that were seen, if they aren't among them.
fn see_operands(seen: &mut UniqueTable<u32>, node: Node) -> Result<(), NoMemory>
    ensures { OnOk result (HasOperands seen.old node seen.new) }
{
    match node {
        Node::And(l, r) => {
            see(seen, l.node())?;
            see(seen, r.node())
        }
        _ => Ok(()),
    }
}

/// Puts the number behind those that were seen, if it isn't among them.
fn see(seen: &mut UniqueTable<u32>, number: u32) -> Result<(), NoMemory>
    ensures { OnOk result (seen.new ≡ with_number seen.old number) }
{
    seen.insert(number)?;
    Ok(())
}

/// The node with its operands as literals of places in the list.
fn placed(cone: &[u32], node: Node) -> Node
    requires increasing { IsStrictlyIncreasing cone.now }
    requires few { All (λ n. n < 2 ^ 30) cone.now }
    requires operands { (x : ℕ) → Reads node x → Contains cone.now (x / 2) }
    ensures { IsPlacedNode cone.now node result }
{
    match node {
        Node::And(l, r) => Node::And(placed_lit(cone, l), placed_lit(cone, r)),
        other => other,
    }
}

/// The literal as one of a place in the list.
pub(crate) fn placed_lit(cone: &[u32], l: Lit) -> Lit
    requires increasing { IsStrictlyIncreasing cone.now }
    requires few { All (λ n. n < 2 ^ 30) cone.now }
    requires there { Contains cone.now (l.0 / 2) }
    ensures { IsPlacedLit cone.now l.0 result.0 }
{
    match cone.binary_search(&l.node()) {
        Ok(k) => Lit(2 * (k as u32) + l.0 % 2),
        Err(_) => l,
    }
}
