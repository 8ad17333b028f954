//! The encoding of a query (Tseitin, "On the complexity of derivation in propositional calculus").

ghost use Rattle.std.specs.Prelude.{◌≡◌, ◌<◌, ◌≤◌, ◌^◌, ◌*◌, ◌/◌, [], ◌∷◌, length, IfOk, OnOk};
ghost use Rattle.aig.specs.Graph.{IsAbove, IsOrdered};
ghost use Rattle.pair_decide.specs.cnf_encode.Encoding.{literal_of, node_clauses, and_clauses, part_clauses, query_clauses, Adds, IsEncoding, MeansDifference, IsSmall};

use crate::cnf_encode::cnf::Cnf;
use aig::{Aig, Lit, NoMemory, Node, Seq, cones_of};
use proof_check::{Clause, ClauseError, Clauses, Literal, Literals};
use std::alloc::Global;

/// The clauses of the query whether `l` and `r` differ where `care` holds. The nodes of the cones of the three literals are
/// the variables, in their order. Values meet all clauses exactly where they are those of the nodes under an assignment
/// that meets the care and under which the two sides differ.
pub fn encode(alloc: Global, aig: &Aig, l: Lit, r: Lit, care: Lit) -> Result<Cnf, NoMemory>
    requires left { l.0 < 2 * length aig.now }
    requires right { r.0 < 2 * length aig.now }
    requires care { care.0 < 2 * length aig.now }
    ensures encoding { IfOk result (IsEncoding aig.now l.0 r.0 care.0) }
    ensures meaning { IfOk result (MeansDifference aig.now l.0 r.0 care.0) }
    ensures small { IfOk result IsSmall }
{
    aig.keeps();
    let cones = cones_of(alloc, aig, l, r, care)?;
    let mut clauses = Seq::new(alloc);
    let part = cones.part.as_slice();
    put_part(alloc, &mut clauses, part)?;
    put_query(alloc, &mut clauses, cones.left, cones.right, cones.care)?;
    let variables = part.len() as u32;
    Ok(Cnf {
        clauses,
        variables,
        nodes: cones.nodes,
    })
}

/// Puts what is said of each node, in their order.
fn put_part(alloc: Global, clauses: &mut Clauses, part: &[Node]) -> Result<(), NoMemory>
    requires few { length part.now ≤ 2 ^ 30 }
    requires ordered { IsOrdered part.now }
    ensures { OnOk result (Adds (part_clauses 0 part.now) clauses.old clauses.new) }
{
    for k in 0..part.len() {
        put_node(alloc, clauses, k as u32, part[k])?;
    }
    Ok(())
}

/// Puts what is said of the node at a place.
fn put_node(alloc: Global, clauses: &mut Clauses, k: u32, node: Node) -> Result<(), NoMemory>
    requires few { k < 2 ^ 30 }
    requires above { IsAbove k node }
    ensures { OnOk result (Adds (node_clauses k node) clauses.old clauses.new) }
{
    let at = Literal::new(k + 1, true);
    match node {
        Node::Constant => put_clause(alloc, clauses, &[at.negation()]),
        Node::Input(_) => Ok(()),
        Node::And(l, r) => put_and(alloc, clauses, at, literal_of(l), literal_of(r)),
    }
}

/// Puts that the literal is the and of two others.
fn put_and(
    alloc: Global,
    clauses: &mut Clauses,
    at: Literal,
    left: Literal,
    right: Literal,
) -> Result<(), NoMemory>
    ensures { OnOk result (Adds (and_clauses at left right) clauses.old clauses.new) }
{
    put_clause(alloc, clauses, &[at.negation(), left])?;
    put_clause(alloc, clauses, &[at.negation(), right])?;
    put_clause(alloc, clauses, &[at, left.negation(), right.negation()])
}

/// Puts that the care holds and the two sides differ.
fn put_query(
    alloc: Global,
    clauses: &mut Clauses,
    left: Lit,
    right: Lit,
    care: Lit,
) -> Result<(), NoMemory>
    requires left { left.0 / 2 < 2 ^ 30 }
    requires right { right.0 / 2 < 2 ^ 30 }
    requires care { care.0 / 2 < 2 ^ 30 }
    ensures { OnOk result (Adds (query_clauses left.0 right.0 care.0) clauses.old clauses.new) }
{
    let left = literal_of(left);
    let right = literal_of(right);
    put_clause(alloc, clauses, &[literal_of(care)])?;
    put_clause(alloc, clauses, &[left, right])?;
    put_clause(alloc, clauses, &[left.negation(), right.negation()])
}

/// Puts the clause of the literals last, unless it holds both signs of a variable.
fn put_clause(alloc: Global, clauses: &mut Clauses, literals: &[Literal]) -> Result<(), NoMemory>
    ensures { OnOk result (Adds (literals.now ∷ []) clauses.old clauses.new) }
{
    let literals = Literals::from_vec(literals.to_vec(alloc)?);
    match Clause::new(alloc, &literals) {
        Ok(clause) => clauses.push(clause),
        Err(ClauseError::Tautology) => Ok(()),
        Err(ClauseError::NoMemory) => Err(NoMemory),
    }
}

/// The clause literal of a literal.
fn literal_of(l: Lit) -> Literal
    requires { l.0 / 2 < 2 ^ 30 }
    ensures { result ≡ literal_of l.0 }
{
    Literal::new(l.node() + 1, !l.is_complement())
}
