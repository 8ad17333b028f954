//! The places of the variables of queries.

ghost use Rattle.std.specs.Prelude.{◌≡◌, ℕ, ◌+◌, ◌-◌, ◌*◌, ◌^◌, ◌<◌, ◌≤◌, min, true, false, List, [], ◌∷◌, ◌++◌, length, map, All, IfOk, OnOk};
ghost use Rattle.std.specs.List.{AllPairs, sum_by};
ghost use Rattle.obligations.specs.pair_decide.Query.{Query};
ghost use Rattle.cbf_unfold.specs.unfold_places.Reach.{Adds};
ghost use Rattle.obligations.specs.Asked.{queries_of};
ghost use Rattle.assume_queries.specs.assume_functions.assume_places.Gathered.{HasPlaces, AreGathered, IsAmong, place_at};

use base_tables::PlaceTable;
use cbf_unfold::shift_variables::query_places::places_of;
use obligations::{Obligation, Query};
use sec_base::{Ids, MAX_WEIGHT, NoMemory, Seq};
use std::alloc::Global;

/// The places of the variables of queries: shifts or cycles.
#[derive(Drop)]
pub struct QueryPlaces {
    /// Each place once, in the order in which they first come, with 0 beside it.
    pub table: PlaceTable,
    /// For each query, in order, its own places, by their numbers in the table.
    pub own: Vec<Ids>,
    /// How many the queries' own are together, as far as a u64 tells it.
    pub count: u64,
}

/// The places of all queries that are asked, in order, of variables that stand in this table.
pub fn places_of_all(
    alloc: Global,
    table: &PlaceTable,
    asked: &[Obligation],
) -> Result<QueryPlaces, NoMemory>
    requires queries { All (HasPlaces table.now) (queries_of asked.now) }
    requires room { length table.now ≤ 2 ^ 30 }
    ensures { IfOk result (AreGathered table.now (queries_of asked.now)) }
{
    let mut found = QueryPlaces {
        table: PlaceTable::new(alloc),
        own: Vec::new(alloc),
        count: 0,
    };
    for i in 0..asked.len() {
        add_queries(alloc, table, asked[i].queries.as_slice(), &mut found)?;
    }
    Ok(found)
}

/// Puts the places of these queries behind those so far.
fn add_queries(
    alloc: Global,
    table: &PlaceTable,
    queries: &[Query],
    found: &mut QueryPlaces,
) -> Result<(), NoMemory>
    requires queries { All (HasPlaces table.now) queries.now }
    requires room { length table.now ≤ 2 ^ 30 }
    requires before { (qs : List Query) × AreGathered table.now qs found.old }
    ensures { OnOk result ((qs : List Query) → AreGathered table.now qs found.old → AreGathered table.now (qs ++ queries.now) found.new) }
{
    for query in queries {
        add_query(alloc, table, query, found)?;
    }
    Ok(())
}

/// Puts the places of one query behind those so far.
fn add_query(
    alloc: Global,
    table: &PlaceTable,
    query: &Query,
    found: &mut QueryPlaces,
) -> Result<(), NoMemory>
    requires query { HasPlaces table.now query.now }
    requires room { length table.now ≤ 2 ^ 30 }
    requires before { (qs : List Query) × AreGathered table.now qs found.old }
    ensures { OnOk result ((qs : List Query) → AreGathered table.now qs found.old → AreGathered table.now (qs ++ query.now ∷ []) found.new) }
{
    let places = places_of(alloc, table, query.vars.as_slice())?;
    let own = numbers_of(alloc, &mut found.table, places.as_slice())?;
    found.table.keeps();
    found.count = found.count.saturating_add(own.len() as u64);
    found.own.push(own)?;
    Ok(())
}

/// The numbers of these places in the table, where those are put that aren't there.
fn numbers_of(alloc: Global, found: &mut PlaceTable, places: &[u32]) -> Result<Ids, NoMemory>
    requires { length found.old + length places.now + 1 < 2 ^ 32 }
    ensures places { IfOk result (λ own. map (place_at found.new) own ≡ places.now) }
    ensures within { IfOk result (λ own. All (λ n. n < length found.new) own) }
    ensures adds { OnOk result (Adds (IsAmong places.now) found.old found.new) }
{
    let mut own = Vec::new(alloc);
    for place in places {
        let number = found.intern(*place, 0)?;
        own.push(number)?;
    }
    Ok(Seq::from_vec(own))
}

impl QueryPlaces {
    /// Whether an assumption of this weight weighs more than 2,000,000 at all these places, with one more for each query's own.
    pub fn is_over(&self, weight: u32) -> bool
        requires weight { weight ≤ MAX_WEIGHT }
        requires count { self.now.count ≡ min (sum_by length self.now.own.items) (2 ^ 64 - 1) }
        ensures over { result ≡ true → MAX_WEIGHT < weight * length self.now.table + sum_by length self.now.own.items }
        ensures light { result ≡ false → weight * length self.now.table + sum_by length self.now.own.items ≤ MAX_WEIGHT }
    {
        let places = u64::from(self.table.len());
        let functions = u64::from(weight).saturating_mul(places);
        functions.saturating_add(self.count) > u64::from(MAX_WEIGHT)
    }
}
