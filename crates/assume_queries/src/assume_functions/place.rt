//! An assumption's function at a place.

ghost use Rattle.std.specs.Prelude.{◌≡◌, ℕ, List, ◌+◌, ◌^◌, ◌<◌, ◌≤◌, length, IfOk};
ghost use Rattle.flat_net.specs.View.{NetView};
ghost use Rattle.aig.specs.Graph.{Grows};
ghost use Rattle.cbf_unfold.specs.unfold_places.Reach.{Adds};
ghost use Rattle.assume_queries.specs.assume_functions.Functions.{IsOwnFunction, IsAssumedAt, HasNoLatch};

use crate::assume_functions::numbers::{numbers_at, picked};
use crate::assume_functions::own::OwnFunction;
use aig::Aig;
use aig::graph_copy::copy_into;
use base_tables::PlaceTable;
use cbf_unfold::Unfolded;
use sec_base::NoMemory;
use std::alloc::Global;

/// The function of a net without latches in this graph, where each input is read at this place. After `NoMemory` the graph and the
/// table may have grown. They grow by no more than the function's own have, the constant not counted, so by its weight at most.
pub fn assume_at(
    alloc: Global,
    own: &OwnFunction,
    aig: &mut Aig,
    places: &mut PlaceTable,
    place: u32,
) -> Result<Unfolded, NoMemory>
    requires own { (n : NetView) × (order : List ℕ) × (s : ℕ) × IsOwnFunction n order s own.now }
    requires nodes { length aig.old + 2 ^ 26 < 2 ^ 30 }
    requires entries { length places.old ≤ 2 ^ 29 }
    ensures assumed { IfOk result (λ u. (n : NetView) (order : List ℕ) (s : ℕ) → IsOwnFunction n order s own.now → HasNoLatch n → IsAssumedAt n order s place aig.new places.new u) }
    ensures grows { Grows aig.old aig.new }
    ensures adds { Adds (λ p. Unit {0}) places.old places.new }
    ensures nodes { length aig.new + 1 ≤ length aig.old + length own.now.aig }
    ensures entries { length places.new ≤ length places.old + length own.now.places }
{
    own.aig.keeps();
    own.places.keeps();
    let numbers = numbers_at(alloc, own, places, place)?;
    let lit = copy_into(alloc, aig, &own.aig, own.function.lit, numbers.as_slice())?;
    let vars = picked(alloc, own.function.vars.as_slice(), numbers.as_slice())?;
    Ok(Unfolded { lit, vars })
}
