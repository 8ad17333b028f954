//! Which queries are swept, and which are told apart before.

ghost use Rattle.std.specs.Prelude.{◌≡◌, ◌*◌, ◌↔◌, ℕ, List, length, All, IfOk, IsTrue};
ghost use Rattle.std.specs.List.{AllZip};
ghost use Rattle.swept_queries.specs.sweep.aig.Graph.{vars_of};
ghost use Rattle.swept_queries.specs.InStead.{MayBeWithin, AreKnownWithin, IsTrivial, IsKept, IsChosen};

use crate::apart::lane_apart;
use crate::sides::{Known, Sides};
use crate::sweep::{Aig, Lit, NoMemory, SignatureTable, signatures};
use std::alloc::Global;

/// Whether there is a query whose sides are different literals and whose care isn't the literal 0.
pub(crate) fn is_any_open(given: &[Option<Sides>]) -> bool {
    for i in 0..given.len() {
        if let Some(sides) = given[i]
            && !is_trivial(&sides)
        {
            return true;
        }
    }
    false
}

/// Of these queries those that are to be swept: their sides are different literals, and 512 assignments don't tell them apart.
/// Where some assignment does, its number.
pub(crate) fn chosen(
    alloc: Global,
    aig: &Aig,
    given: &[Option<Sides>],
    words: &[u64],
) -> Result<Vec<Known>, NoMemory>
    requires within { All (MayBeWithin aig.now) given.now }
    requires words { length words.now ≡ 8 * vars_of aig.now }
    ensures kept { IfOk result (λ asked. AllZip (IsKept aig.now words.now) given.now asked.items) }
    ensures within { IfOk result (λ asked. All (AreKnownWithin aig.now) asked.items) }
{
    let table = signatures(alloc, aig, words)?;
    let mut asked = Vec::new(alloc);
    for i in 0..given.len() {
        asked.push(chosen_of(&table, given[i]))?;
    }
    Ok(asked)
}

/// What is known of the query by the table, or that it is swept.
fn chosen_of(table: &SignatureTable, given: Option<Sides>) -> Known
    requires { MayBeWithin table.now given }
    ensures chosen { IsChosen table.now given result }
    ensures within { AreKnownWithin table.now result }
{
    let Some(sides) = given else {
        return Known::Nothing;
    };
    if is_trivial(&sides) {
        return Known::Nothing;
    }
    match lane_apart(table, &sides) {
        Some(lane) => Known::Apart(lane),
        None => Known::Swept(sides),
    }
}

/// Whether both sides are one literal, or the care is the literal 0.
fn is_trivial(sides: &Sides) -> bool
    ensures { IsTrue result ↔ IsTrivial sides.now }
{
    sides.left == sides.right || sides.care == Lit::FALSE
}
