//! The care of a cycle: the assumption in each cycle up to it.

ghost use Rattle.std.specs.Prelude.{◌≡◌, ◌+◌, ◌^◌, ◌≤◌, length, IfOk, OnOk};
ghost use Rattle.aig.specs.Graph.{Grows};
ghost use Rattle.cbf_unfold.specs.unfold_places.Reach.{Adds};
ghost use Rattle.assume_queries.specs.Parted.{Weighs};
ghost use Rattle.cycle_under.specs.Cares.{OfEach, IsCareFirst};

use aig::Aig;
use assume_queries::assume_functions::assume_at;
use assume_queries::assume_sequences::Premise;
use base_tables::PlaceTable;
use cbf_unfold::shift_variables::cycle_variables::merge_cycles;
use cbf_unfold::unfold_places::Unfolded;
use sec_base::NoMemory;
use std::alloc::Global;

/// The care with the assumption in this cycle besides those before it. After `NoMemory` the graph and the table may have grown.
pub(crate) fn care_with(
    alloc: Global,
    premise: &Premise,
    aig: &mut Aig,
    places: &mut PlaceTable,
    care: &Unfolded,
    cycle: u32,
) -> Result<Unfolded, NoMemory>
    requires premise { Weighs premise.now.own premise.now.weight }
    requires nodes { length aig.old ≤ 2 ^ 28 }
    requires entries { length places.old ≤ 2 ^ 28 }
    requires care { OfEach premise.now.own (λ c. IsCareFirst c aig.old places.old cycle care.now) }
    ensures care { IfOk result (λ u. OfEach premise.now.own (λ c. IsCareFirst c aig.new places.new (cycle + 1) u)) }
    ensures grows { OnOk result (Grows aig.old aig.new) }
    ensures adds { OnOk result (Adds (λ p. Unit {0}) places.old places.new) }
    ensures nodes { OnOk result (length aig.new ≤ length aig.old + premise.now.weight + 1) }
    ensures entries { OnOk result (length places.new ≤ length places.old + premise.now.weight) }
{
    aig.keeps();
    let here = assume_at(alloc, &premise.own, aig, places, cycle)?;
    aig.keeps();
    places.keeps();
    let vars = merge_cycles(alloc, places, care.vars.as_slice(), here.vars.as_slice())?;
    let lit = aig.and(care.lit, here.lit)?;
    aig.keeps();
    Ok(Unfolded { lit, vars })
}
