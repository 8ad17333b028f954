//! Which nodes a sweep tries: those of queries whose sides are still different literals.

ghost use Rattle.std.specs.Prelude.{◌≡◌, ◌*◌, ◌<◌, List, length, All, IfOk, IfSome, OnOk};
ghost use Rattle.swept_queries.specs.sweep.aig.Node.{Node};
ghost use Rattle.swept_queries.specs.declared.sides.Known.TheVariants as what;
ghost use Rattle.swept_queries.specs.InStead.{AreKnownWithin};

use crate::sides::{Known, Sides};
use crate::sweep::{Lit, NoMemory};
use std::alloc::Global;

/// Whether there is a query to be swept whose sides are different literals.
pub(crate) fn is_any_left(known: &[Known]) -> bool {
    for i in 0..known.len() {
        if open_sides(known[i]).is_some() {
            return true;
        }
    }
    false
}

/// Whether there is a query that an assignment tells apart.
pub(crate) fn is_any_told(known: &[Known]) -> bool {
    for i in 0..known.len() {
        if matches!(known[i], Known::Apart(_)) {
            return true;
        }
    }
    false
}

/// The left sides of these queries, or all their literals.
pub(crate) fn lits_of(alloc: Global, known: &[Known], all: bool) -> Result<Vec<Lit>, NoMemory>
    ensures { IfOk result (λ lits. (g : List Node) → All (AreKnownWithin g) known.now → All (λ l. l.0 < 2 * length g) lits.items) }
{
    let mut lits = Vec::new(alloc);
    for i in 0..known.len() {
        put_open(&mut lits, known[i], all)?;
    }
    Ok(lits)
}

/// Puts the left side of the query, or all its literals, if it is one of these.
fn put_open(lits: &mut Vec<Lit>, known: Known, all: bool) -> Result<(), NoMemory>
    ensures { OnOk result ((g : List Node) → AreKnownWithin g known → All (λ l. l.0 < 2 * length g) lits.old.items → All (λ l. l.0 < 2 * length g) lits.new.items) }
{
    let Some(sides) = open_sides(known) else {
        return Ok(());
    };
    lits.push(sides.left)?;
    if !all {
        return Ok(());
    }
    lits.push(sides.right)?;
    lits.push(sides.care)?;
    Ok(())
}

/// The literals of a query that is to be swept, if its sides are different ones.
fn open_sides(known: Known) -> Option<Sides>
    ensures { IfSome result (λ t. known ≡ what.Swept t) }
{
    match known {
        Known::Swept(sides) => {
            if sides.left == sides.right {
                None
            } else {
                Some(sides)
            }
        }
        _ => None,
    }
}
