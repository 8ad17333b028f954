//! What is found of the queries of one obligation.

ghost use Rattle.std.specs.Prelude.{◌≡◌, ℕ, ◌+◌, ◌<◌, ◌≤◌, ◌^◌, length, slice_get, Some, IfOk, IfSome, MatchOption};
ghost use Rattle.std.specs.List.{All};
ghost use Rattle.obligations.specs.outcome.aig.Node.{Node};
ghost use Rattle.obligations.specs.outcome.Query.{Query};
ghost use Rattle.obligations.specs.outcome.Queries.{IsQuery};
ghost use Rattle.swept_queries.specs.InStead.{IsKnown};
ghost use Rattle.obligations.specs.Agreed.{AreAgreed};
ghost use Rattle.obligations.specs.Found.{IsFound, EndsAt};

use crate::known::KnownSides;
use crate::outcome::{Aig, Bits, Decision, MAX_CONFLICTS, NoMemory, Proof, Query};
use crate::words::are_agreed;
use std::alloc::Global;
use swept_queries::SweptQueries;

/// What is found of queries, which are decided up to the first whose sides don't agree.
#[derive(Drop)]
pub(crate) enum Found {
    /// The sides of each agree.
    Same,
    /// Those of the query at this place differ under these bits of its variables.
    Differs(usize, Bits),
    /// The limit was met.
    Limit(Proof),
}

/// What is found of the queries of the obligation `pair`, the first of which stands at this place of all: they are the same where its sides
/// are bits of words that are, and else decided.
pub(crate) fn find(
    alloc: Global,
    aig: &Aig,
    queries: &[Query],
    known: &KnownSides,
    pair: usize,
    place: usize,
    conflicts: u32,
) -> Result<Found, NoMemory>
    requires queries { All (IsQuery aig.now) queries.now }
    requires known { (i : ℕ) (q : Query) → slice_get queries.now i ≡ Some q → IsKnown aig.now known.now.swept (place + i) q }
    requires agreed { AreAgreed aig.now known.now.bits.items }
    requires few { place + length queries.now < 2 ^ 64 }
    requires conflicts { conflicts ≤ MAX_CONFLICTS }
    ensures { IfOk result (IsFound aig.now conflicts queries.now) }
{
    if are_agreed(known.bits.as_slice(), pair, queries) {
        return Ok(Found::Same);
    }
    decide_queries(alloc, aig, queries, &known.swept, place, conflicts)
}

/// Decides queries in order, the first of which stands at this place of all.
fn decide_queries(
    alloc: Global,
    aig: &Aig,
    queries: &[Query],
    swept: &SweptQueries,
    place: usize,
    conflicts: u32,
) -> Result<Found, NoMemory>
    requires queries { All (IsQuery aig.now) queries.now }
    requires known { (i : ℕ) (q : Query) → slice_get queries.now i ≡ Some q → IsKnown aig.now swept.now (place + i) q }
    requires few { place + length queries.now < 2 ^ 64 }
    requires conflicts { conflicts ≤ MAX_CONFLICTS }
    ensures { IfOk result (IsFound aig.now conflicts queries.now) }
{
    for i in 0..queries.len() {
        let decision = swept.decide(alloc, aig, &queries[i], place + i, conflicts)?;
        if let Some(found) = end_of(decision, i) {
            return Ok(found);
        }
    }
    Ok(Found::Same)
}

/// What ends the deciding of queries at this place, if its answer does.
fn end_of(decision: Decision, place: usize) -> Option<Found>
    ensures { EndsAt place decision result }
{
    match decision {
        Decision::Same(_) => None,
        Decision::Differs(bits) => Some(Found::Differs(place, bits)),
        Decision::Limit(proof) => Some(Found::Limit(proof)),
    }
}
