//! Places of a table.

ghost use Rattle.std.specs.Prelude.{◌≡◌, IfOk};

use crate::unfold_places::memo::Place;
use flat_net::{NoMemory, PlaceTable};
use std::alloc::Global;

/// The table's places as a list.
pub fn listed(alloc: Global, table: &PlaceTable) -> Result<Vec<Place>, NoMemory>
    ensures { IfOk result (λ places. places.items ≡ table.now) }
{
    let mut places = Vec::with_capacity(alloc, table.len() as usize)?;
    for number in 0..table.len() {
        places.push(table.pair(number))?;
    }
    Ok(places)
}
