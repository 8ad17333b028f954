//! What is asked of each pair in a cycle.

ghost use Rattle.std.specs.Prelude.{◌≡◌, ◌<◌, [], ◌∷◌, length, slice_get, Some, All, IfOk};
ghost use Rattle.std.specs.List.{AllZip};
ghost use Rattle.cbf_unfold.specs.declared.unfold_places.signal_function.Unfolded.{Unfolded};
ghost use Rattle.cbf_unfold.specs.shift_variables.cycle_variables.Cycles.{AreInCycles};
ghost use Rattle.reset_form.specs.reset_asked.Asked.{IsCycleQuery};
ghost use Rattle.sec_setup.specs.declared.ports.pairs.SignalPair.{SignalPair};
ghost use Rattle.merged_graph.specs.Merged.{IsMerged};
ghost use Rattle.cycle_search.specs.Asked.{AskedIn, AreAskedIn, AreQueriesOf};

use aig::Lit;
use cbf_unfold::shift_variables::cycle_variables::merge_cycles;
use cbf_unfold::unfold_places::Unfolded;
use merged_graph::MergedGraph;
use obligations::{Obligation, Queries, copy_name};
use pair_decide::Query;
use reset_form::reset_functions::Functions;
use sec_base::NoMemory;
use sec_setup::SignalPair;
use std::alloc::Global;

/// What is asked of each pair in the cycle, in order: whether both functions agree always. Nothing is asked where they have one
/// literal, or one in the merged graph.
pub(crate) fn ask(
    alloc: Global,
    functions: &Functions,
    merged: &MergedGraph,
    pairs: &[SignalPair],
    left: &[Unfolded],
    right: &[Unfolded],
    cycle: u32,
) -> Result<Vec<Obligation>, NoMemory>
    requires merged { IsMerged functions.now.aig merged.now }
    requires left_each { length left.now ≡ length pairs.now }
    requires right_each { length right.now ≡ length pairs.now }
    requires left { All (λ u. AreInCycles functions.now.places u.vars) left.now }
    requires right { All (λ u. AreInCycles functions.now.places u.vars) right.now }
    ensures { IfOk result (λ asked. AreAskedIn functions.now.aig functions.now.places cycle pairs.now left.now right.now asked.items) }
{
    let mut asked = Vec::new(alloc);
    for i in 0..pairs.len() {
        let obligation = obligation_of(
            alloc, functions, merged, &pairs[i], &left[i], &right[i], cycle,
        )?;
        asked.push(obligation)?;
    }
    Ok(asked)
}

/// What is asked of one pair.
fn obligation_of(
    alloc: Global,
    functions: &Functions,
    merged: &MergedGraph,
    pair: &SignalPair,
    left: &Unfolded,
    right: &Unfolded,
    cycle: u32,
) -> Result<Obligation, NoMemory>
    requires merged { IsMerged functions.now.aig merged.now }
    requires left { AreInCycles functions.now.places left.now.vars }
    requires right { AreInCycles functions.now.places right.now.vars }
    ensures { IfOk result (AskedIn functions.now.aig functions.now.places cycle pair.now left.now right.now) }
{
    let queries = queries_of(alloc, functions, merged, left, right)?;
    let name = copy_name(&pair.name)?;
    Ok(Obligation {
        name,
        size: cycle,
        decisive: true,
        queries,
    })
}

/// Whether two functions always agree, as a query; none where they have one literal, or one in the merged graph.
fn queries_of(
    alloc: Global,
    functions: &Functions,
    merged: &MergedGraph,
    left: &Unfolded,
    right: &Unfolded,
) -> Result<Queries, NoMemory>
    requires merged { IsMerged functions.now.aig merged.now }
    requires left { AreInCycles functions.now.places left.now.vars }
    requires right { AreInCycles functions.now.places right.now.vars }
    ensures { IfOk result (AreQueriesOf functions.now.aig functions.now.places left.now right.now) }
{
    let mut queries = Queries::new(alloc);
    if left.lit.0 == right.lit.0 || merged.is_one(left.lit, right.lit) {
        return Ok(queries);
    }
    let places = &functions.places;
    let vars = merge_cycles(alloc, places, left.vars.as_slice(), right.vars.as_slice())?;
    queries.push(Query {
        left: left.lit,
        right: right.lit,
        care: Lit::TRUE,
        vars,
    })?;
    Ok(queries)
}
