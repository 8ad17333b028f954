//! An enable against the members of a class.

ghost use Rattle.std.specs.Prelude.{◌≡◌, ◌≢◌, ◌+◌, ◌^◌, ◌<◌, ◌≤◌, length, Some, All, IfOk, IfSome, IfNone};
ghost use Rattle.event_nodes.specs.Nodes.{GrowsEvents};
ghost use Rattle.class_search.specs.declared.compare.Enable.{Enable};
ghost use Rattle.class_search.specs.Comparing.{IsReadyEnable};
ghost use Rattle.class_search.specs.Fitting.{AreSameEnables, IsUnlike, IsFirstUnlike};

use crate::compare::{Compared, Enable, compare_enables};
use event_nodes::event_variables::{EventGraph, MAX_CONFLICTS, NoMemory};
use pair_decide::Decision;
use std::alloc::Global;

/// The first member of a class whose enable isn't known to agree with another one, and the answer to the query of the two.
#[derive(Drop)]
pub struct Unlike {
    /// Its place among the members.
    pub member: usize,
    /// The answer: a difference, or a limit.
    pub compared: Compared,
}

/// The first of the members whose enable isn't known to agree with the latch's wherever both have care; None where all do. At most one
/// node is added to the graph for each member.
pub fn first_unlike(
    alloc: Global,
    events: &mut EventGraph,
    members: &[Enable],
    latch: &Enable,
    conflicts: u32,
) -> Result<Option<Unlike>, NoMemory>
    requires members { All (IsReadyEnable events.old) members.now }
    requires latch { IsReadyEnable events.old latch.now }
    requires room { length events.old.graph + length members.now < 2 ^ 30 }
    requires conflicts { conflicts ≤ MAX_CONFLICTS }
    ensures same { IfOk result (λ found. IfNone found (All (λ x. AreSameEnables events.new x latch.now) members.now)) }
    ensures unlike { IfOk result (λ found. IfSome found (IsFirstUnlike events.new members.now latch.now conflicts)) }
    ensures ready { (x : Enable) → IsReadyEnable events.old x → IsReadyEnable events.new x }
    ensures grows { GrowsEvents events.old events.new }
    ensures few { length events.new.graph ≤ length events.old.graph + length members.now }
    ensures rest { events.new ≡ record events.old { graph = events.new.graph } }
{
    for member in 0..members.len() {
        let found = ask_member(alloc, events, &members[member], latch, conflicts)?;
        if let Some(compared) = found {
            return Ok(Some(Unlike { member, compared }));
        }
    }
    Ok(None)
}

/// The answer to the query of a member's enable and the latch's; None where it is that they agree wherever both have care. Enables of one
/// value agree, and aren't asked about.
fn ask_member(
    alloc: Global,
    events: &mut EventGraph,
    member: &Enable,
    latch: &Enable,
    conflicts: u32,
) -> Result<Option<Compared>, NoMemory>
    requires member { IsReadyEnable events.old member.now }
    requires latch { IsReadyEnable events.old latch.now }
    requires room { length events.old.graph + 1 < 2 ^ 30 }
    requires conflicts { conflicts ≤ MAX_CONFLICTS }
    ensures same { IfOk result (λ found. IfNone found (AreSameEnables events.new member.now latch.now)) }
    ensures unlike { IfOk result (λ found. IfSome found (IsUnlike events.new member.now latch.now conflicts)) }
    ensures ready { (x : Enable) → IsReadyEnable events.old x → IsReadyEnable events.new x }
    ensures grows { GrowsEvents events.old events.new }
    ensures few { length events.new.graph ≤ length events.old.graph + 1 }
    ensures rest { events.new ≡ record events.old { graph = events.new.graph } }
{
    if member.value.0 == latch.value.0 {
        events.keeps();
        let _care = events.and(member.care, latch.care)?;
        return Ok(None);
    }
    let compared = compare_enables(alloc, events, member, latch, conflicts)?;
    if let Decision::Same(_) = &compared.decision {
        return Ok(None);
    }
    Ok(Some(compared))
}
