//! The nodes of a graph, made again in another one, where each variable has a literal.

ghost use Rattle.std.specs.Prelude.{◌≡◌, ℕ, Bool, ◌*◌, ◌<◌, List, [], length, All, IfOk, OnOk};
ghost use Rattle.aig.specs.declared.node.Node.{Node};
ghost use Rattle.aig.specs.Graph.{Grows};
ghost use Rattle.aig.specs.Values.{value};
ghost use Rattle.signal_refine.specs.Asking.{AreOne};
ghost use Rattle.signal_refine.specs.Copies.{HaveAt, node_at, IsCopy, IsCopied, IsReadAs, AreCarried};

use crate::anchors::anchor_literal;
use crate::leaves::is_full;
use aig::{Aig, Lit, Node};
use circuit_laws::signal_laws::Anchor;
use sec_base::NoMemory;
use std::alloc::Global;

/// The literals of all nodes, by their numbers.
#[derive(Drop)]
pub(crate) struct NodeLits {
    /// An and's is that of what its operands are read as.
    pub own: Vec<Lit>,
    /// What a node is read as: its anchor's literal, where it has one.
    pub read: Vec<Lit>,
}

/// The nodes of `base`, whose variables have these literals. A graph that is full counts as no memory.
pub(crate) fn copy_of(
    alloc: Global,
    aig: &mut Aig,
    base: &Aig,
    leaves: &[Lit],
    anchors: &[Anchor],
) -> Result<NodeLits, NoMemory>
    requires { All (λ x. x.0 < 2 * length aig.old) leaves.now }
    ensures { IfOk result (IsCopy base.now leaves.now anchors.now aig.old aig.new (length base.now)) }
{
    let mut copy = NodeLits::new(alloc);
    for n in 0..base.size() {
        copy.put(aig, base, leaves, anchors, n)?;
    }
    Ok(copy)
}

impl NodeLits {
    /// Of no node.
    pub(crate) fn new(alloc: Global) -> NodeLits
        ensures own { result.own.items ≡ [] }
        ensures read { result.read.items ≡ [] }
    {
        NodeLits {
            own: Vec::new(alloc),
            read: Vec::new(alloc),
        }
    }

    /// Puts the literals of the node of this number behind the others.
    fn put(
        &mut self,
        aig: &mut Aig,
        base: &Aig,
        leaves: &[Lit],
        anchors: &[Anchor],
        n: u32,
    ) -> Result<(), NoMemory>
        requires leaves { All (λ x. x.0 < 2 * length aig.old) leaves.now }
        requires node { n < length base.now }
        requires each { length self.old.read.items ≡ n }
        requires within { All (λ x. x.0 < 2 * length aig.old) self.old.read.items }
        ensures { OnOk result (IsCopied base.now leaves.now anchors.now aig.old self.old aig.new self.new) }
    {
        let own = node_literal(aig, base, leaves, &self.read, n)?;
        aig.keeps();
        let read = read_as(anchors, &self.read, n as usize, own);
        self.own.push(own)?;
        self.read.push(read)?;
        Ok(())
    }
}

/// For each node of a graph of so many the last place whose own literal is one of it, and that is read as another one; a place that there isn't,
/// where there is none.
pub(crate) fn places_of_own(
    alloc: Global,
    before: &NodeLits,
    nodes: u32,
) -> Result<Vec<usize>, NoMemory> {
    let mut places = vec![in alloc; usize::MAX; nodes as usize]?;
    for i in 0..before.own.len().min(before.read.len()) {
        let n = before.own[i].node() as usize;
        if n < places.len() && before.own[i].0 != before.read[i].0 {
            places[n] = i;
        }
    }
    Ok(places)
}

/// What the literal is read as, where it is one of a place's own literal.
pub(crate) fn read_for(before: &NodeLits, places: &[usize], l: Lit) -> Lit
    ensures value { (g : List Node) (a : ℕ → Bool) → AreOne before.now.own.items before.now.read.items g a → value g a result.0 ≡ value g a l.0 }
    ensures within { (n : ℕ) → All (λ x. x.0 < 2 * n) before.now.read.items → l.0 < 2 * n → result.0 < 2 * n }
{
    let i = places.get(l.node() as usize).copied().unwrap_or(usize::MAX);
    if i >= before.own.len() || i >= before.read.len() {
        return l;
    }
    if before.own[i].0 == l.0 {
        before.read[i]
    } else if Aig::not(before.own[i]).0 == l.0 {
        Aig::not(before.read[i])
    } else {
        l
    }
}

/// The literal of the node of this number, where those before are read as these.
pub(crate) fn node_literal(
    aig: &mut Aig,
    base: &Aig,
    leaves: &[Lit],
    read: &[Lit],
    n: u32,
) -> Result<Lit, NoMemory>
    requires leaves { All (λ x. x.0 < 2 * length aig.old) leaves.now }
    requires node { n < length base.now }
    requires each { length read.now ≡ n }
    requires within { All (λ x. x.0 < 2 * length aig.old) read.now }
    ensures value { IfOk result (λ x. (a c : ℕ → Bool) → HaveAt c aig.old a leaves.now → HaveAt (node_at base.now c) aig.old a read.now → value aig.new a x.0 ≡ node_at base.now c n) }
    ensures within { IfOk result (λ x. x.0 < 2 * length aig.new) }
    ensures grows { OnOk result (Grows aig.old aig.new) }
{
    aig.keeps();
    if is_full(aig) {
        return Err(NoMemory);
    }
    match base.node(n) {
        Node::Constant => Ok(Lit::FALSE),
        Node::Input(v) => leaf_at(leaves, v),
        Node::And(l, r) => aig.and(read_literal(read, l), read_literal(read, r)),
    }
}

/// The variable's literal. One that has none counts as no memory.
pub(crate) fn leaf_at(leaves: &[Lit], v: u32) -> Result<Lit, NoMemory>
    ensures value { IfOk result (λ x. (g : List Node) (a c : ℕ → Bool) → HaveAt c g a leaves.now → value g a x.0 ≡ c v) }
    ensures within { IfOk result (λ x. (n : ℕ) → All (λ y. y.0 < 2 * n) leaves.now → x.0 < 2 * n) }
{
    if v as usize >= leaves.len() {
        return Err(NoMemory);
    }
    Ok(leaves[v as usize])
}

/// What the literal is read as, where nodes are read as these.
pub(crate) fn read_literal(read: &[Lit], l: Lit) -> Lit
    requires { l.0 < 2 * length read.now }
    ensures value { (base g : List Node) (a c : ℕ → Bool) → HaveAt (node_at base c) g a read.now → value g a result.0 ≡ value base c l.0 }
    ensures within { (n : ℕ) → All (λ y. y.0 < 2 * n) read.now → result.0 < 2 * n }
{
    let made = read[l.node() as usize];
    if l.is_complement() {
        Aig::not(made)
    } else {
        made
    }
}

/// What the literals are read as, where nodes are read as these.
pub(crate) fn carried(alloc: Global, read: &[Lit], lits: &[Lit]) -> Result<Vec<Lit>, NoMemory>
    requires { All (λ x. x.0 < 2 * length read.now) lits.now }
    ensures { IfOk result (λ made. AreCarried read.now lits.now made.items) }
{
    let mut made = Vec::new(alloc);
    for i in 0..lits.len() {
        made.push(read_literal(read, lits[i]))?;
    }
    Ok(made)
}

/// What the node of this number is read as, where its own literal is this one and those before are read as these.
fn read_as(anchors: &[Anchor], read: &[Lit], n: usize, own: Lit) -> Lit
    ensures { IsReadAs anchors.now read.now n own result }
{
    if n < anchors.len()
        && let Some(lit) = anchor_literal(read, anchors[n])
    {
        return lit;
    }
    own
}
