//! The places of variables.

ghost use Rattle.std.specs.Prelude.{◌≡◌, ◌≢◌, ◌-◌, ◌<◌, true, false, length, slice_index_or, All, IfOk};
ghost use Rattle.cbf_unfold.specs.shift_variables.query_places.Places.{place_of, AreGrouped, ArePlacesOf, ComeInTurn};

use base_tables::PlaceTable;
use sec_base::{Ids, NoMemory, Seq};
use std::alloc::Global;

/// The places of these variables, each once, in the order in which they come. Variables of one place stand side by side.
pub fn places_of(alloc: Global, table: &PlaceTable, vars: &[u32]) -> Result<Ids, NoMemory>
    requires within { All (λ v. v < length table.now) vars.now }
    requires grouped { AreGrouped table.now vars.now }
    ensures places { IfOk result (ArePlacesOf table.now vars.now) }
    ensures turn { IfOk result (ComeInTurn table.now vars.now) }
{
    let mut places = Vec::new(alloc);
    for i in 0..vars.len() {
        if is_met_before(table, vars, i) {
            continue;
        }
        let (_, place) = table.pair(vars[i]);
        places.push(place)?;
    }
    Ok(Seq::from_vec(places))
}

/// Whether the variable at this position has the place of the one before it.
fn is_met_before(table: &PlaceTable, vars: &[u32], i: usize) -> bool
    requires within { All (λ v. v < length table.now) vars.now }
    requires inside { i < length vars.now }
    ensures some { result ≡ true → 0 < i }
    ensures same { result ≡ true → place_of table.now (slice_index_or vars.now (i - 1) 0) ≡ place_of table.now (slice_index_or vars.now i 0) }
    ensures new { result ≡ false → 0 < i → place_of table.now (slice_index_or vars.now (i - 1) 0) ≢ place_of table.now (slice_index_or vars.now i 0) }
{
    if i == 0 {
        return false;
    }
    let (_, before) = table.pair(vars[i - 1]);
    let (_, place) = table.pair(vars[i]);
    before == place
}
