//! A graph where one variable has a bit.

ghost use Rattle.std.specs.Prelude.{◌≡◌, ℕ, ◌+◌, ◌*◌, ◌/◌, ◌^◌, ◌<◌, ◌≤◌, Bool, List, length, IfOk, IfSome, OnOk, IsTrue};
ghost use Rattle.aig.specs.declared.node.Node.{Node};
ghost use Rattle.aig.specs.Values.{KeepsValues};
ghost use Rattle.sweep_candidates.specs.case_split.Under.{StandsUnder, AreUnder, IsPutBehind};

use crate::case_split::lits::{constant, literal_for};
use crate::case_split::marks::is_marked;
use aig::{Aig, Lit, NoMemory, Node};
use std::alloc::Global;

/// The most nodes of a case.
const MOST: u32 = 1 << 29;

/// Two literals of a graph.
#[derive(Drop)]
pub(crate) struct Case {
    pub graph: Aig,
    pub left: Lit,
    pub right: Lit,
    /// How many nodes their cones had before the variable got its bit. No clause sees it.
    pub before: usize,
}

/// A graph where a variable has a bit, and its literals for the first nodes of another graph.
#[derive(Drop)]
struct Part {
    graph: Aig,
    lits: Vec<Option<Lit>>,
}

/// Puts the two literals where the variable has the bit behind the rest, in a graph of the marked nodes. False where they reach what
/// isn't marked.
pub(crate) fn put_case(
    alloc: Global,
    graph: &Aig,
    marks: &[bool],
    lits: (Lit, Lit),
    before: usize,
    var: u32,
    bit: bool,
    waiting: &mut Vec<Case>,
) -> Result<bool, NoMemory>
    ensures { IfOk result (λ told. IsTrue told → IsPutBehind graph.now lits.0.0 lits.1.0 var bit waiting.old.items waiting.new.items) }
{
    let part = part_of(alloc, graph, marks, var, bit)?;
    let known = part.lits.as_slice();
    let (Some(left), Some(right)) = (literal_for(known, lits.0), literal_for(known, lits.1)) else {
        return Ok(false);
    };
    waiting.push(Case {
        graph: part.graph,
        left,
        right,
        before,
    })?;
    Ok(true)
}

/// The graph of the marked nodes where the variable has the bit.
fn part_of(
    alloc: Global,
    graph: &Aig,
    marks: &[bool],
    var: u32,
    bit: bool,
) -> Result<Part, NoMemory>
    ensures { IfOk result (λ p. AreUnder graph.now var bit p.graph p.lits.items) }
{
    let mut part = Part {
        graph: Aig::new(alloc)?,
        lits: Vec::new(alloc),
    };
    for n in 0..graph.size() {
        if part.graph.size() >= MOST {
            break;
        }
        part.put(graph, n, is_marked(marks, n as usize), var, bit)?;
    }
    Ok(part)
}

impl Part {
    /// Puts what is known of the next node behind the rest: the literal for it, if it is marked.
    fn put(
        &mut self,
        graph: &Aig,
        n: u32,
        marked: bool,
        var: u32,
        bit: bool,
    ) -> Result<(), NoMemory>
        requires node { n < length graph.now }
        requires next { n ≡ length self.old.lits.items }
        requires room { length self.old.graph + 1 < 2 ^ 30 }
        requires under { AreUnder graph.now var bit self.old.graph self.old.lits.items }
        ensures under { OnOk result (AreUnder graph.now var bit self.new.graph self.new.lits.items) }
        ensures more { OnOk result (length self.new.lits.items ≡ length self.old.lits.items + 1) }
    {
        let known = self.lits.as_slice();
        let found = put_node(&mut self.graph, graph, known, n, marked, var, bit)?;
        self.lits.push(found)?;
        Ok(())
    }
}

/// The literal for this node, if it is marked: the bit where it is the variable's, and the and of its operands' where they have some.
fn put_node(
    small: &mut Aig,
    graph: &Aig,
    lits: &[Option<Lit>],
    n: u32,
    marked: bool,
    var: u32,
    bit: bool,
) -> Result<Option<Lit>, NoMemory>
    requires node { n < length graph.now }
    requires room { length small.old + 1 < 2 ^ 30 }
    requires under { AreUnder graph.now var bit small.old lits.now }
    ensures stands { IfOk result (λ found. IfSome found (λ y. StandsUnder var bit graph.now small.new (2 * n) y.0)) }
    ensures older { KeepsValues small.old small.new }
    ensures more { length small.old ≤ length small.new }
{
    if !marked {
        return Ok(None);
    }
    graph.keeps();
    let _vars = graph.vars();
    match graph.node(n) {
        Node::Constant => Ok(Some(constant(small, false))),
        Node::Input(v) => {
            if v == var {
                Ok(Some(constant(small, bit)))
            } else {
                let lit = small.input(v)?;
                Ok(Some(lit))
            }
        }
        Node::And(l, r) => {
            let (Some(s), Some(t)) = (literal_for(lits, l), literal_for(lits, r)) else {
                return Ok(None);
            };
            let lit = small.and(s, t)?;
            Ok(Some(lit))
        }
    }
}
