//! An assumption's function at each of several places.

ghost use Rattle.std.specs.Prelude.{◌≡◌, ℕ, List, ◌+◌, ◌*◌, ◌^◌, ◌<◌, ◌≤◌, length, IfOk, OnOk};
ghost use Rattle.flat_net.specs.View.{NetView};
ghost use Rattle.aig.specs.Graph.{Grows};
ghost use Rattle.cbf_unfold.specs.unfold_places.Reach.{Adds};
ghost use Rattle.assume_queries.specs.assume_functions.Functions.{IsOwnFunction, HasNoLatch};
ghost use Rattle.assume_queries.specs.assume_functions.assume_places.Placed.{CanBePut, ArePut};

use crate::assume_functions::{OwnFunction, assume_at};
use aig::Aig;
use base_tables::PlaceTable;
use cbf_unfold::unfold_places::Unfolded;
use sec_base::{MAX_WEIGHT, NoMemory};
use std::alloc::Global;

/// The function at each place of a table of places, in order. After `NoMemory` the graph and the table of variables may have grown.
pub fn functions_at(
    alloc: Global,
    own: &OwnFunction,
    aig: &mut Aig,
    table: &mut PlaceTable,
    found: &PlaceTable,
) -> Result<Vec<Unfolded>, NoMemory>
    requires own { CanBePut own.now (length found.now) }
    requires nodes { length aig.old ≤ 2 ^ 28 }
    requires entries { length table.old ≤ 2 ^ 28 }
    ensures put { IfOk result (λ us. (n : NetView) (order : List ℕ) (s : ℕ) → IsOwnFunction n order s own.now → HasNoLatch n → ArePut n order s aig.new table.new found.now us.items) }
    ensures grows { OnOk result (Grows aig.old aig.new) }
    ensures adds { OnOk result (Adds (λ p. Unit {0}) table.old table.new) }
    ensures nodes { OnOk result (length aig.new ≤ length aig.old + MAX_WEIGHT) }
    ensures entries { OnOk result (length table.new ≤ length table.old + MAX_WEIGHT) }
{
    aig.keeps();
    let mut functions = Vec::new(alloc);
    for n in 0..found.len() {
        let (place, _) = found.pair(n);
        let function = assume_at(alloc, own, aig, table, place)?;
        aig.keeps();
        functions.push(function)?;
    }
    Ok(functions)
}
