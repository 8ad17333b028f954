//! Literals of a graph, made in another one.

ghost use Rattle.std.specs.Prelude.{◌≡◌, ℕ, List, [], ◌∷◌, ◌++◌, ◌+◌, ◌*◌, ◌^◌, ◌<◌, ◌≤◌, length, All, IfOk};
ghost use Rattle.aig.specs.declared.node.Node.{Node};
ghost use Rattle.aig.specs.Graph.{vars_of, Grows};
ghost use Rattle.aig.specs.graph_copy.Copy.{IsCopyOf, AreCopies};

use crate::{Aig, Lit, NoMemory, Node};
use std::alloc::Global;

/// The literal in `aig` for a literal of the graph `own`, where variable v of `own` is the variable with the number at place v.
/// It makes at most one node for each of `own` but the constant. After `NoMemory` nodes may have been added.
pub fn copy_into(
    alloc: Global,
    aig: &mut Aig,
    own: &Aig,
    lit: Lit,
    numbers: &[u32],
) -> Result<Lit, NoMemory>
    requires literal { lit.0 < 2 * length own.now }
    requires covers { vars_of own.now ≤ length numbers.now }
    requires small { All (λ v. v + 1 < 2 ^ 32) numbers.now }
    requires room { length aig.old + length own.now < 2 ^ 30 }
    ensures copy { IfOk result (λ x. IsCopyOf own.now numbers.now aig.new lit.0 x.0) }
    ensures grows { Grows aig.old aig.new }
    ensures few { length aig.new + 1 ≤ length aig.old + length own.now }
{
    own.keeps();
    let mut lits = Vec::new(alloc);
    for n in 0..own.size() {
        let made = copy_node(aig, own, n, numbers, lits.as_slice())?;
        lits.push(made)?;
    }
    Ok(literal_for(lits.as_slice(), lit))
}

/// The literal for a node, where those for the nodes before it are given.
fn copy_node(
    aig: &mut Aig,
    own: &Aig,
    n: u32,
    numbers: &[u32],
    lits: &[Lit],
) -> Result<Lit, NoMemory>
    requires node { n < length own.now }
    requires each { length lits.now ≡ n }
    requires copies { AreCopies own.now numbers.now aig.old lits.now }
    requires covers { vars_of own.now ≤ length numbers.now }
    requires small { All (λ v. v + 1 < 2 ^ 32) numbers.now }
    requires room { length aig.old + 1 < 2 ^ 30 }
    ensures copies { IfOk result (λ x. AreCopies own.now numbers.now aig.new (lits.now ++ x ∷ [])) }
    ensures grows { Grows aig.old aig.new }
    ensures few { length aig.new ≤ length aig.old + 1 }
    ensures first { n ≡ 0 → aig.new ≡ aig.old }
{
    own.keeps();
    aig.keeps();
    match own.node(n) {
        Node::Constant => Ok(Lit::FALSE),
        Node::Input(v) => {
            let made = aig.input(numbers[v as usize])?;
            aig.keeps();
            Ok(made)
        }
        Node::And(l, r) => {
            let made = aig.and(literal_for(lits, l), literal_for(lits, r))?;
            aig.keeps();
            Ok(made)
        }
    }
}

/// The literal for one of a graph, where those for the nodes are given.
fn literal_for(lits: &[Lit], l: Lit) -> Lit
    requires { l.0 < 2 * length lits.now }
    ensures { (own : List Node) (numbers : List ℕ) (g : List Node) → AreCopies own numbers g lits.now → IsCopyOf own numbers g l.0 result.0 }
{
    let made = lits[l.node() as usize];
    if l.is_complement() {
        Aig::not(made)
    } else {
        made
    }
}
