//! The table of inputs, and the graph that has them alone.

ghost use Rattle.std.specs.Prelude.{◌≡◌, ◌≢◌, ◌<◌, ◌≤◌, length, All, IfOk};
ghost use Rattle.std.specs.List.{AllPairs};
ghost use Rattle.tree_graph.specs.declared.covers.TheConstants.{MOST_NODES};
ghost use Rattle.tree_graph.specs.Rooted.{entries};
ghost use Rattle.tree_graph.specs.Numbering.{with_inputs};

use crate::covers::MOST_NODES;
use aig::{Aig, NoMemory};
use flat_net::{PlaceTable, UniqueTable};
use std::alloc::Global;

/// The entries of the table with these numbers, in their order.
pub(crate) fn table_of(
    alloc: Global,
    places: &PlaceTable,
    vars: &[u32],
) -> Result<UniqueTable<(u32, u32)>, NoMemory>
    requires within { All (λ v. v < length places.now) vars.now }
    requires differ { AllPairs (λ u v. u ≢ v) vars.now }
    ensures { IfOk result (λ table. table ≡ entries places.now vars.now) }
{
    places.keeps();
    let mut table = UniqueTable::new(alloc, u32::MAX);
    for i in 0..vars.len() {
        let entry = places.pair(vars[i]);
        table.put(entry)?;
    }
    Ok(table)
}

/// The graph with so many inputs alone.
pub(crate) fn start(alloc: Global, count: u32) -> Result<Aig, NoMemory>
    ensures inputs { IfOk result (λ g. g ≡ with_inputs count) }
    ensures few { IfOk result (λ g. length g ≤ MOST_NODES) }
{
    if count >= MOST_NODES {
        return Err(NoMemory);
    }
    let mut aig = Aig::new(alloc)?;
    for number in 0..count {
        aig.input(number)?;
    }
    Ok(aig)
}
