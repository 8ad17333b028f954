//! The queries.

ghost use Rattle.std.specs.Prelude.{◌≡◌, ◌+◌, ◌^◌, ◌<◌, ◌≤◌, length, IfOk};
ghost use Rattle.event_nodes.specs.Nodes.{GrowsEvents};
ghost use Rattle.class_search.specs.declared.compare.Enable.{Enable};
ghost use Rattle.class_search.specs.Comparing.{IsReadyEnable, IsComparison, IsAlwaysComparison};

use event_nodes::event_variables::{
    EventGraph, Ids, Lit, MAX_CONFLICTS, NoMemory, merge_variables,
};
use pair_decide::{Decision, Query, decide};
use std::alloc::Global;

/// The load enable of a latch, at the root, as a function of inputs at event nodes.
pub struct Enable {
    /// The value.
    pub value: Lit,
    /// The care: 1 in exactly the frames with care.
    pub care: Lit,
    /// The variables of both, longer paths first, then by path in the order of class numbers, then by input.
    pub vars: Ids,
}

/// It is let go by one call: an owner isn't taken apart field by field at each way out.
impl Drop for Enable {
    fn drop(self) {
        let Enable {
            value: _,
            care: _,
            vars: _,
        } = self;
    }
}

/// The answer to a class query.
#[derive(Drop)]
pub struct Compared {
    /// The variables of the query, in their order. A difference has a bit for each.
    pub vars: Ids,
    pub decision: Decision,
}

/// Whether the enables agree wherever both have care. At most one node is added to the graph.
pub fn compare_enables(
    alloc: Global,
    events: &mut EventGraph,
    left: &Enable,
    right: &Enable,
    conflicts: u32,
) -> Result<Compared, NoMemory>
    requires left { IsReadyEnable events.old left.now }
    requires right { IsReadyEnable events.old right.now }
    requires room { length events.old.graph + 1 < 2 ^ 30 }
    requires conflicts { conflicts ≤ MAX_CONFLICTS }
    ensures compared { IfOk result (IsComparison events.new left.now right.now conflicts) }
    ensures ready { (x : Enable) → IsReadyEnable events.old x → IsReadyEnable events.new x }
    ensures grows { GrowsEvents events.old events.new }
    ensures few { length events.new.graph ≤ length events.old.graph + 1 }
    ensures same { events.new ≡ record events.old { graph = events.new.graph } }
{
    events.keeps();
    let care = events.and(left.care, right.care)?;
    events.keeps();
    let vars = merge_variables(alloc, events, left.vars.as_slice(), right.vars.as_slice())?;
    let query = Query {
        left: left.value,
        right: right.value,
        care,
        vars,
    };
    let decision = decide(alloc, events.aig(), &query, conflicts)?;
    Ok(Compared {
        vars: query.vars,
        decision,
    })
}

/// Whether the enable is 1 wherever it has care.
pub fn compare_always(
    alloc: Global,
    events: &EventGraph,
    latch: &Enable,
    conflicts: u32,
) -> Result<Compared, NoMemory>
    requires ready { IsReadyEnable events.now latch.now }
    requires conflicts { conflicts ≤ MAX_CONFLICTS }
    ensures { IfOk result (IsAlwaysComparison events.now latch.now conflicts) }
{
    events.keeps();
    let vars = latch.vars.copy()?;
    let query = Query {
        left: latch.value,
        right: Lit::TRUE,
        care: latch.care,
        vars,
    };
    let decision = decide(alloc, events.aig(), &query, conflicts)?;
    Ok(Compared {
        vars: query.vars,
        decision,
    })
}
