//! All that is asked, under an assumption.

ghost use Rattle.std.specs.Prelude.{◌≡◌, ℕ, List, ◌+◌, ◌*◌, ◌^◌, ◌<◌, ◌≤◌, length, drop, All, Err, IfOk, OnOk};
ghost use Rattle.std.specs.List.{AllZip, sum_by};
ghost use Rattle.flat_net.specs.View.{NetView};
ghost use Rattle.aig.specs.Graph.{Grows};
ghost use Rattle.cbf_unfold.specs.unfold_places.Reach.{Adds};
ghost use Rattle.pair_decide.specs.declared.query.Query.{Query};
ghost use Rattle.obligations.specs.Asked.{queries_of};
ghost use Rattle.assume_laws.specs.Assume.{IsAssumption};
ghost use Rattle.assume_laws.specs.assume_shape.Shape.{assumption_of};
ghost use Rattle.assume_queries.specs.assume_functions.Functions.{IsOwnFunction};
ghost use Rattle.assume_queries.specs.assume_functions.assume_places.Gathered.{AreOwn, IsOverUnder, IsLightUnder};
ghost use Rattle.assume_queries.specs.declared.map.UnderError.TheVariants as under_error;
ghost use Rattle.assume_queries.specs.assume_answers.Order.{AreOrdered};
ghost use Rattle.assume_queries.specs.assume_answers.Under.{IsObligationUnder};
ghost use Rattle.assume_queries.specs.Parted.{AreParts, ArePartsFrom, AreOwnFrom, IsObligationMade, Weighs};

use crate::assume_answers::VariableOrder;
use crate::assume_functions::assume_places::{
    Obligation, OwnFunction, Queries, QueryPlaces, copy_name, functions_at, places_of_all,
};
use crate::query::query_under;
use aig::Aig;
use base_tables::PlaceTable;
use cbf_unfold::unfold_places::Unfolded;
use sec_base::{Ids, MAX_WEIGHT, NoMemory};
use std::alloc::Global;

/// Why nothing is asked under an assumption.
#[derive(Drop)]
pub enum UnderError {
    /// The assumption weighs more than 2,000,000 at all places of the queries' variables, with one more for each place of each query.
    TooLarge,
    /// Memory was wanted and couldn't be had.
    NoMemory,
}

impl From<NoMemory> for UnderError {
    ghost use Rattle.std.specs.Prelude.{◌≡◌};
    ghost use Rattle.assume_queries.specs.declared.map.UnderError.TheVariants.{NoMemory};

    ghost from_gives = { λ _ e. e ≡ NoMemory };

    fn from(_error: NoMemory) -> UnderError {
        UnderError::NoMemory
    }
}

/// What an assumption gives to queries: for each query the numbers of its own places, and the function at each place.
pub(crate) struct Parts {
    pub own: Vec<Ids>,
    pub functions: Vec<Unfolded>,
}

/// It is let go by one call: an owner isn't taken apart field by field at each way out.
impl Drop for Parts {
    fn drop(self) {
        let Parts {
            own: _,
            functions: _,
        } = self;
    }
}

/// What is asked, each query under the assumption with this function and weight, at each place that has a variable of the query. The
/// graph and the table of variables grow; after a refusal they may have grown.
pub fn asked_under(
    alloc: Global,
    order: VariableOrder,
    own: &OwnFunction,
    weight: u32,
    aig: &mut Aig,
    table: &mut PlaceTable,
    asked: &[Obligation],
) -> Result<Vec<Obligation>, UnderError>
    requires own { Weighs own.now weight }
    requires queries { All (λ q. AreOrdered order table.old q.vars) (queries_of asked.now) }
    requires nodes { length aig.old ≤ 2 ^ 28 }
    requires entries { length table.old ≤ 2 ^ 28 }
    ensures under { IfOk result (λ made. (n : NetView) (inputs : List ℕ) (s size : ℕ) → IsOwnFunction n inputs s own.now → IsAssumption (assumption_of n inputs s) size → AllZip (IsObligationUnder order (assumption_of n inputs s) aig.new table.new) asked.now made.items) }
    ensures light { OnOk result (IsLightUnder weight table.old (queries_of asked.now)) }
    ensures over { result ≡ Err under_error.TooLarge → IsOverUnder weight table.old (queries_of asked.now) }
    ensures grows { OnOk result (Grows aig.old aig.new) }
    ensures adds { OnOk result (Adds (λ p. Unit {0}) table.old table.new) }
    ensures small { OnOk result (length aig.new ≤ length aig.old + 2 * MAX_WEIGHT) }
{
    let found = places_of_all(alloc, table, asked)?;
    if found.is_over(weight) {
        return Err(UnderError::TooLarge);
    }
    let functions = functions_at(alloc, own, aig, table, &found.table)?;
    let QueryPlaces {
        table: _,
        own: numbers,
        count: _,
    } = found;
    let parts = Parts {
        own: numbers,
        functions,
    };
    let made = obligations_under(alloc, order, aig, table, asked, &parts)?;
    Ok(made)
}

/// Each obligation under the assumption.
fn obligations_under(
    alloc: Global,
    order: VariableOrder,
    aig: &mut Aig,
    table: &PlaceTable,
    asked: &[Obligation],
    parts: &Parts,
) -> Result<Vec<Obligation>, NoMemory>
    requires parts { AreParts order table.now parts.now (queries_of asked.now) }
    requires literals { All (λ u. u.lit.0 < 2 * length aig.old) parts.now.functions.items }
    requires room { length aig.old + sum_by length parts.now.own.items < 2 ^ 30 }
    ensures made { IfOk result (λ made. (found : List (ℕ × ℕ)) → AllZip (AreOwn table.now found) (queries_of asked.now) parts.now.own.items → AllZip (IsObligationMade order table.now aig.old found parts.now aig.new) asked.now made.items) }
    ensures grows { OnOk result (Grows aig.old aig.new) }
    ensures few { OnOk result (length aig.new ≤ length aig.old + sum_by length parts.now.own.items) }
{
    aig.keeps();
    let mut made = Vec::new(alloc);
    let mut place = 0;
    for i in 0..asked.len() {
        let obligation = &asked[i];
        let under = obligation_under(alloc, order, aig, table, obligation, parts, place)?;
        made.push(under)?;
        aig.keeps();
        place += obligation.queries.len();
    }
    Ok(made)
}

/// One obligation under the assumption, the parts of whose queries stand from a place on.
fn obligation_under(
    alloc: Global,
    order: VariableOrder,
    aig: &mut Aig,
    table: &PlaceTable,
    obligation: &Obligation,
    parts: &Parts,
    place: usize,
) -> Result<Obligation, NoMemory>
    requires parts { ArePartsFrom order table.now parts.now place obligation.now.queries }
    requires literals { All (λ u. u.lit.0 < 2 * length aig.old) parts.now.functions.items }
    requires room { length aig.old + sum_by length (drop place parts.now.own.items) < 2 ^ 30 }
    ensures made { IfOk result (λ made. (found : List (ℕ × ℕ)) → AreOwnFrom table.now found parts.now place obligation.now.queries → IsObligationMade order table.now aig.old found parts.now aig.new obligation.now made) }
    ensures grows { OnOk result (Grows aig.old aig.new) }
    ensures few { OnOk result (length aig.new + sum_by length (drop (place + length obligation.now.queries) parts.now.own.items) ≤ length aig.old + sum_by length (drop place parts.now.own.items)) }
{
    aig.keeps();
    let asked = obligation.queries.as_slice();
    let mut queries = Queries::new(alloc);
    for j in 0..asked.len() {
        let query = &asked[j];
        let numbers = &parts.own[place + j];
        let own = numbers.as_slice();
        let functions = parts.functions.as_slice();
        let under = query_under(alloc, order, aig, table, query, own, functions)?;
        aig.keeps();
        queries.push(under)?;
    }
    let name = copy_name(&obligation.name)?;
    Ok(Obligation {
        name,
        size: obligation.size,
        decisive: obligation.decisive,
        queries,
    })
}
