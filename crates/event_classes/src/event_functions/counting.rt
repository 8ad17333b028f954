//! What a start visits is counted with what was counted before.

ghost use Rattle.std.specs.Prelude.{◌≡◌, ◌⊎◌, ◌+◌, ◌^◌, ◌<◌, ◌≤◌, length, All, Contains, OnOk, OnErr, Err};
ghost use Rattle.event_nodes.specs.declared.error.EventUnfoldError.TheVariants as unfold_error;
ghost use Rattle.event_nodes.specs.Adds.{Adds};
ghost use Rattle.event_nodes.specs.Visited.{IsWeighed};
ghost use Rattle.event_classes.specs.event_functions.Refused.{IsOverweight};

use event_nodes::event_variables::{
    Counter, EventGraph, EventUnfoldError, Net, NoMemory, Place, Signal,
};

/// With so many nodes, or variables, an event graph of at most 2^30 has no room for a function of the greatest weight.
const FULL: u32 = 1_043_741_822;

/// Finds that there is room for an event function, whatever it weighs up to 2,000,000: 15 nodes for each unit of that, and two. `NoMemory`
/// comes exactly where the graph is nearly full.
pub fn find_room(events: &EventGraph) -> Result<(), NoMemory>
    ensures nodes { OnOk result (length events.now.graph + 30000002 < 2 ^ 30) }
    ensures places { OnOk result (length events.now.places + 30000002 < 2 ^ 31) }
    ensures full { OnErr result ((1043741822 ≤ length events.now.graph) ⊎ (1043741822 ≤ length events.now.places)) }
{
    if events.size() >= FULL {
        return Err(NoMemory);
    }
    if events.variables() >= FULL {
        return Err(NoMemory);
    }
    Ok(())
}

/// Counts all these places too. `TooLarge` comes where all then weigh more than 2,000,000.
pub fn count_all(net: &Net, total: &mut Counter, visits: &Counter) -> Result<(), EventUnfoldError>
    requires weighed { IsWeighed net.now total.old }
    requires signals { All (λ p. p.1 < length net.now.drivers) visits.now.places }
    ensures adds { Adds (Contains visits.now.places) total.old.places total.new.places }
    ensures all { OnOk result (All (Contains total.new.places) visits.now.places) }
    ensures weighed { OnOk result (IsWeighed net.now total.new) }
    ensures many { result ≡ Err unfold_error.TooManyEvents → ⊥ }
    ensures large { result ≡ Err unfold_error.TooLarge → IsOverweight net.now total.new.places }
{
    for number in 0..visits.len() {
        count_one(net, total, visits.place(number))?;
    }
    Ok(())
}

/// Counts the place.
fn count_one(net: &Net, total: &mut Counter, place: Place) -> Result<(), EventUnfoldError>
    requires signal { place.1 < length net.now.drivers }
    requires weighed { IsWeighed net.now total.old }
    ensures adds { Adds (λ q. q ≡ place) total.old.places total.new.places }
    ensures here { OnOk result (Contains total.new.places place) }
    ensures weighed { OnOk result (IsWeighed net.now total.new) }
    ensures many { result ≡ Err unfold_error.TooManyEvents → ⊥ }
    ensures large { result ≡ Err unfold_error.TooLarge → IsOverweight net.now total.new.places }
{
    let counted = total.count(net, place.0, Signal(place.1));
    total.keeps();
    counted
}
