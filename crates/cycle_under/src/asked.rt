//! What is asked of each pair in a cycle under an assumption.

ghost use Rattle.std.specs.Prelude.{◌≡◌, ◌<◌, [], ◌∷◌, length, slice_get, Some, All, IfOk};
ghost use Rattle.cbf_unfold.specs.declared.unfold_places.signal_function.Unfolded.{Unfolded};
ghost use Rattle.cbf_unfold.specs.shift_variables.cycle_variables.Cycles.{AreInCycles};
ghost use Rattle.sec_setup.specs.declared.ports.pairs.SignalPair.{SignalPair};
ghost use Rattle.cycle_under.specs.Asked.{AskedUnder, AreAskedUnder, AreQueriesUnder};

use base_tables::PlaceTable;
use cbf_unfold::shift_variables::cycle_variables::merge_cycles;
use cbf_unfold::unfold_places::Unfolded;
use obligations::{Obligation, Queries, copy_name};
use pair_decide::Query;
use sec_base::NoMemory;
use sec_setup::SignalPair;
use std::alloc::Global;

/// What is asked of each pair in the cycle, in order: whether both functions agree where the care holds. Nothing is asked where they have one
/// literal.
pub(crate) fn ask(
    alloc: Global,
    places: &PlaceTable,
    care: &Unfolded,
    pairs: &[SignalPair],
    left: &[Unfolded],
    right: &[Unfolded],
    cycle: u32,
) -> Result<Vec<Obligation>, NoMemory>
    requires left_each { length left.now ≡ length pairs.now }
    requires right_each { length right.now ≡ length pairs.now }
    requires left { All (λ u. AreInCycles places.now u.vars) left.now }
    requires right { All (λ u. AreInCycles places.now u.vars) right.now }
    requires care { AreInCycles places.now care.now.vars }
    ensures { IfOk result (λ asked. AreAskedUnder places.now care.now cycle pairs.now left.now right.now asked.items) }
{
    let mut asked = Vec::new(alloc);
    for i in 0..pairs.len() {
        let obligation = obligation_of(alloc, places, care, &pairs[i], &left[i], &right[i], cycle)?;
        asked.push(obligation)?;
    }
    Ok(asked)
}

/// What is asked of one pair.
fn obligation_of(
    alloc: Global,
    places: &PlaceTable,
    care: &Unfolded,
    pair: &SignalPair,
    left: &Unfolded,
    right: &Unfolded,
    cycle: u32,
) -> Result<Obligation, NoMemory>
    requires left { AreInCycles places.now left.now.vars }
    requires right { AreInCycles places.now right.now.vars }
    requires care { AreInCycles places.now care.now.vars }
    ensures { IfOk result (AskedUnder places.now care.now cycle pair.now left.now right.now) }
{
    let queries = queries_of(alloc, places, care, left, right)?;
    let name = copy_name(&pair.name)?;
    Ok(Obligation {
        name,
        size: cycle,
        decisive: true,
        queries,
    })
}

/// Whether two functions agree where the care holds, as a query; none where they have one literal.
fn queries_of(
    alloc: Global,
    places: &PlaceTable,
    care: &Unfolded,
    left: &Unfolded,
    right: &Unfolded,
) -> Result<Queries, NoMemory>
    requires left { AreInCycles places.now left.now.vars }
    requires right { AreInCycles places.now right.now.vars }
    requires care { AreInCycles places.now care.now.vars }
    ensures { IfOk result (AreQueriesUnder places.now care.now left.now right.now) }
{
    let mut queries = Queries::new(alloc);
    if left.lit.0 == right.lit.0 {
        return Ok(queries);
    }
    let sides = merge_cycles(alloc, places, left.vars.as_slice(), right.vars.as_slice())?;
    let vars = merge_cycles(alloc, places, sides.as_slice(), care.vars.as_slice())?;
    queries.push(Query {
        left: left.lit,
        right: right.lit,
        care: care.lit,
        vars,
    })?;
    Ok(queries)
}
