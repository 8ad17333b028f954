//! The literal for another graph's.

ghost use Rattle.std.specs.Prelude.{◌*◌, ◌+◌, ◌^◌, ◌<◌, ◌≤◌, List, length, IfOk, IfSome, ◌≡◌, OnOk};
ghost use Rattle.aig.specs.declared.node.Node.{Node};
ghost use Rattle.aig.specs.Values.{KeepsValues};
ghost use Rattle.swept_queries.specs.node_agreement.Standing.{StandsFor, AreStandIns, plainly};

use aig::{Aig, Lit, NoMemory, Node};
use std::alloc::Global;
use swept_queries::node_agreement::{signed, zero};

/// The literal for one whose node has one in the list.
pub(crate) fn literal_for(lits: &[Lit], l: Lit) -> Lit
    requires { l.0 < 2 * length lits.now }
    ensures { (g h : List Node) → AreStandIns g h lits.now → StandsFor plainly g h l.0 result.0 }
{
    signed(lits[(l.0 / 2) as usize], l)
}

/// The literal for one, if its node has one in the list.
pub(crate) fn literal_at(lits: &[Lit], l: Lit) -> Option<Lit>
    ensures { IfSome result (λ y. (g h : List Node) → AreStandIns g h lits.now → StandsFor plainly g h l.0 y.0) }
{
    if ((l.0 / 2) as usize) < lits.len() {
        Some(literal_for(lits, l))
    } else {
        None
    }
}

/// The literal for a node of the other graph, where those for the nodes before it are given.
pub(crate) fn put_node(graph: &mut Aig, other: &Aig, n: u32, lits: &[Lit]) -> Result<Lit, NoMemory>
    requires node { n < length other.now }
    requires each { length lits.now ≡ n }
    requires lits { AreStandIns other.now graph.old lits.now }
    requires room { length graph.old + 1 < 2 ^ 30 }
    ensures stands { IfOk result (λ x. StandsFor plainly other.now graph.new (2 * n) x.0) }
    ensures older { KeepsValues graph.old graph.new }
    ensures more { length graph.old ≤ length graph.new }
{
    let _vars = other.vars();
    match other.node(n) {
        Node::Constant => Ok(zero(graph)),
        Node::Input(v) => graph.input(v),
        Node::And(l, r) => graph.and(literal_for(lits, l), literal_for(lits, r)),
    }
}

/// The literals of the list, where the one for the node of `from` is such that `to` is the one for `from`.
pub(crate) fn with_literal(
    alloc: Global,
    lits: &[Lit],
    from: Lit,
    to: Lit,
) -> Result<Vec<Lit>, NoMemory>
    ensures each { IfOk result (λ made. length made.items ≡ length lits.now) }
    ensures stand { IfOk result (λ made. (g h : List Node) → AreStandIns g h lits.now → StandsFor plainly g h from.0 to.0 → AreStandIns g h made.items) }
{
    let mut made = Vec::new(alloc);
    for n in 0..lits.len() {
        made.push(literal_of(lits, n, from, to))?;
    }
    Ok(made)
}

/// The literal of that list for a node.
fn literal_of(lits: &[Lit], n: usize, from: Lit, to: Lit) -> Lit
    requires { n < length lits.now }
    ensures { (g h : List Node) → AreStandIns g h lits.now → StandsFor plainly g h from.0 to.0 → StandsFor plainly g h (2 * n) result.0 }
{
    if (from.0 / 2) as usize == n {
        signed(to, from)
    } else {
        lits[n]
    }
}
