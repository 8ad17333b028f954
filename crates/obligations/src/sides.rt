//! What is tried and swept before the queries are decided.

ghost use Rattle.std.specs.Prelude.{◌≡◌, ◌++◌, ◌<◌, ◌^◌, length, IfOk, OnOk};
ghost use Rattle.std.specs.List.{AllZip};
ghost use Rattle.obligations.specs.Asked.{AreAsked, AreKnown, MaySweep, queries_of, HaveMore};

use crate::obligation::Obligation;
use crate::outcome::{Aig, NoMemory, Query};
use crate::words::{WordBit, is_agreed};
use aig::MAX_TABLE_VARIABLES;
use std::alloc::Global;
use swept_queries::node_agreement::Model;
use swept_queries::{Sides, SweptQueries, sweep_queries};

/// Sweeps the graph for the queries that may need a search and aren't known by these bits. Assignments near these models are tried on them.
pub(crate) fn sweep_asked(
    alloc: Global,
    aig: &Aig,
    asked: &[Obligation],
    bits: &[WordBit],
    models: &[Model],
    conflicts: u32,
) -> Result<SweptQueries, NoMemory>
    requires { AreAsked aig.now asked.now }
    ensures known { IfOk result (λ swept. AreKnown aig.now swept (queries_of asked.now)) }
    ensures few { OnOk result (length (queries_of asked.now) < 2 ^ 64) }
{
    let sides = all_sides(alloc, asked, bits)?;
    sweep_queries(alloc, aig, sides.as_slice(), models, conflicts)
}

/// For each query, in order, its literals if it has many variables and isn't known by these bits.
fn all_sides(
    alloc: Global,
    asked: &[Obligation],
    bits: &[WordBit],
) -> Result<Vec<Option<Sides>>, NoMemory>
    ensures { IfOk result (λ sides. AllZip MaySweep (queries_of asked.now) sides.items) }
{
    let mut sides = Vec::new(alloc);
    for i in 0..asked.len() {
        let known = is_agreed(bits, i, asked);
        put_sides(&mut sides, asked[i].queries.as_slice(), known)?;
    }
    Ok(sides)
}

/// Puts what may be swept for these queries behind the rest.
fn put_sides(sides: &mut Vec<Option<Sides>>, queries: &[Query], known: bool) -> Result<(), NoMemory>
    ensures { OnOk result (HaveMore queries.now sides.old.items sides.new.items) }
{
    for query in queries {
        sides.push(sides_of(query, known))?;
    }
    Ok(())
}

/// The literals of a query that has many variables and isn't known.
fn sides_of(query: &Query, known: bool) -> Option<Sides>
    ensures { MaySweep query.now result }
{
    if known || query.vars.len() <= MAX_TABLE_VARIABLES {
        return None;
    }
    Some(Sides {
        left: query.left,
        right: query.right,
        care: query.care,
    })
}
