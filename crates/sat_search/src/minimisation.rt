//! Shortening of a clause before it is learnt: literals that follow from its others are resolved away
//! (Beame, Kautz and Sabharwal; Sorensson and Biere).

ghost use Rattle.std.specs.Prelude.{◌<◌, ◌≤◌, ◌^◌, length, OnOk};
ghost use Rattle.clause_watch.specs.Range.{InRange};
ghost use Rattle.clause_watch.specs.Trails.{IsTrail};
ghost use Rattle.sat_search.specs.Uniques.{IsUnique};

use crate::analysis::{is_forced, resolve_with_reason};
use crate::redundancy::redundant_places;
use clause_watch::{ClauseDb, NoMemory, Placed, Trail};
use proof_check::{Chain, Resolver};
use std::alloc::Global;

/// Resolves literals away that became false before the decision and follow from the others of the
/// clause. A place is looked at again, the last first: where the clause has no such literal by then,
/// nothing is done.
pub(crate) fn shorten(
    alloc: Global,
    store: &ClauseDb,
    trail: &Trail,
    resolver: &mut Resolver,
    chain: &mut Chain,
    last: &Placed,
    decision: u32,
) -> Result<(), NoMemory>
    requires numbers { length store.now < 2 ^ 32 }
    requires range { InRange trail.now.variables store.now }
    requires trail { IsTrail store.now trail.now.entries }
    requires unique { IsUnique store.now trail.now decision resolver.old chain.old last.now }
    ensures { OnOk result (IsUnique store.now trail.now decision resolver.new chain.new last.now) }
{
    let places = redundant_places(alloc, store, trail, resolver, decision)?;
    let mut left = places.len();
    'places: while left > 0 {
        left -= 1;
        take_away(store, trail, resolver, chain, last, decision, places[left])?;
    }
    Ok(())
}

/// Resolves with the reason of the literal that became false at the place, if the clause has it, it
/// has a reason, and the place is before the decision.
fn take_away(
    store: &ClauseDb,
    trail: &Trail,
    resolver: &mut Resolver,
    chain: &mut Chain,
    last: &Placed,
    decision: u32,
    place: u32,
) -> Result<(), NoMemory>
    requires numbers { length store.now < 2 ^ 32 }
    requires range { InRange trail.now.variables store.now }
    requires trail { IsTrail store.now trail.now.entries }
    requires unique { IsUnique store.now trail.now decision resolver.old chain.old last.now }
    ensures { OnOk result (IsUnique store.now trail.now decision resolver.new chain.new last.now) }
{
    if place >= decision {
        return Ok(());
    }
    if place >= trail.len() || !is_forced(trail, place) {
        return Ok(());
    }
    let Some(literal) = resolver.literal(trail.entry(place).literal.variable()) else {
        return Ok(());
    };
    resolve_with_reason(store, trail, resolver, chain, &Placed { literal, place })
}
