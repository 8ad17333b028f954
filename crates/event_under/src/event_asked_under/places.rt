//! The variables of an event graph, each by the place of its event node in the order of nodes.

ghost use Rattle.std.specs.Prelude.{◌≡◌, ℕ, ◌≤◌, length, slice_get, Some, IfOk};
ghost use Rattle.event_nodes.specs.event_variables.ranked_nodes.Named.{ranked_in};

use base_tables::PlaceTable;
use event_nodes::EventGraph;
use sec_base::NoMemory;
use std::alloc::Global;

/// The variables by their numbers: the input of each, and for its event node the place that is given.
pub(crate) fn ranked_places(
    alloc: Global,
    events: &EventGraph,
    ranks: &[u32],
) -> Result<PlaceTable, NoMemory>
    requires each { (n : ℕ) → n ≤ length events.now.children → (i : ℕ) × (slice_get ranks.now n ≡ Some i) }
    requires apart { (m n i : ℕ) → m ≤ length events.now.children → n ≤ length events.now.children → slice_get ranks.now m ≡ Some i → slice_get ranks.now n ≡ Some i → m ≡ n }
    ensures { IfOk result (λ table. table ≡ ranked_in ranks.now events.now.places) }
{
    events.keeps();
    let mut table = PlaceTable::new(alloc);
    let count = events.variables();
    for v in 0..count {
        let (input, node) = events.place(v);
        table.intern(input, ranks[node as usize])?;
    }
    Ok(table)
}
