//! Which nodes are tried: those of pairs of literals that aren't one yet.

ghost use Rattle.std.specs.Prelude.{◌≡◌, ◌*◌, ◌<◌, List, length, All, IfOk, OnOk, IsTrue};
ghost use Rattle.aig.specs.declared.node.Node.{Node};
ghost use Rattle.swept_queries.specs.node_agreement.Standing.{AreStandIns};
ghost use Rattle.swept_queries.specs.node_agreement.Agreeing.{Agree};

use crate::stand_ins::literal_at;
use aig::lane_eval::SignatureTable;
use aig::{Lit, NoMemory};
use std::alloc::Global;

/// Whether both literals have one in the list.
pub(crate) fn is_one(lits: &[Lit], left: Lit, right: Lit) -> bool
    ensures { IsTrue result → (g h : List Node) → AreStandIns g h lits.now → Agree g left.0 right.0 }
{
    match (literal_at(lits, left), literal_at(lits, right)) {
        (Some(x), Some(y)) => x.0 == y.0,
        _ => false,
    }
}

/// Whether some pair isn't one literal in the list.
pub(crate) fn is_any_open(lits: &[Lit], asked: &[(Lit, Lit)]) -> bool {
    for i in 0..asked.len() {
        if !is_one(lits, asked[i].0, asked[i].1) {
            return true;
        }
    }
    false
}

/// Whether one of the table's assignments tells some pair apart, by its literals in the list. The graph has so many nodes.
pub(crate) fn is_any_told(
    table: &SignatureTable,
    nodes: u32,
    lits: &[Lit],
    asked: &[(Lit, Lit)],
) -> bool
    requires { nodes ≡ length table.now }
{
    for i in 0..asked.len() {
        if is_told(table, nodes, lits, asked[i].0, asked[i].1) {
            return true;
        }
    }
    false
}

/// The same of one pair.
pub(crate) fn is_told(
    table: &SignatureTable,
    nodes: u32,
    lits: &[Lit],
    left: Lit,
    right: Lit,
) -> bool
    requires { nodes ≡ length table.now }
{
    let (Some(x), Some(y)) = (literal_at(lits, left), literal_at(lits, right)) else {
        return false;
    };
    if x.node() >= nodes || y.node() >= nodes {
        return false;
    }
    let left = table.block(x.node());
    let right = table.block(y.node());
    // A word of ones complements one.
    let flip = u64::from((x.0 ^ y.0) % 2).wrapping_mul(u64::MAX);
    for i in 0..8 {
        if left[i] ^ right[i] ^ flip != 0 {
            return true;
        }
    }
    false
}

/// The literals in the list for the left sides of pairs that aren't one there, or for both sides, behind these.
pub(crate) fn put_open(
    found: &mut Vec<Lit>,
    lits: &[Lit],
    asked: &[(Lit, Lit)],
    both: bool,
) -> Result<(), NoMemory>
    ensures { OnOk result ((g h : List Node) → AreStandIns g h lits.now → All (λ l. l.0 < 2 * length h) found.old.items → All (λ l. l.0 < 2 * length h) found.new.items) }
{
    for i in 0..asked.len() {
        put_pair(found, lits, asked[i].0, asked[i].1, both)?;
    }
    Ok(())
}

/// The same of one pair.
fn put_pair(
    found: &mut Vec<Lit>,
    lits: &[Lit],
    left: Lit,
    right: Lit,
    both: bool,
) -> Result<(), NoMemory>
    ensures { OnOk result ((g h : List Node) → AreStandIns g h lits.now → All (λ l. l.0 < 2 * length h) found.old.items → All (λ l. l.0 < 2 * length h) found.new.items) }
{
    if is_one(lits, left, right) {
        return Ok(());
    }
    put_literal(found, lits, left)?;
    if both {
        put_literal(found, lits, right)?;
    }
    Ok(())
}

/// Puts the literal for one, if there is one.
fn put_literal(found: &mut Vec<Lit>, lits: &[Lit], l: Lit) -> Result<(), NoMemory>
    ensures { OnOk result ((g h : List Node) → AreStandIns g h lits.now → All (λ l. l.0 < 2 * length h) found.old.items → All (λ l. l.0 < 2 * length h) found.new.items) }
{
    if let Some(y) = literal_at(lits, l) {
        found.push(y)?;
    }
    Ok(())
}
