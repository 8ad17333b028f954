//! The order of the steps of a comparison in the event form under an assumption.

ghost use Rattle.std.specs.Prelude.{◌≡◌, ◌+◌, ◌≤◌, length};
ghost use Rattle.flat_net.specs.Comparable.{IsComparable};
ghost use Rattle.assume_queries.specs.assume_sequences.assume_taken.Premises.{IsPremiseOf};
ghost use Rattle.event_check.specs.event_answers.Reached.{AreClassed};
ghost use Rattle.event_setup.specs.event_meaning.event_meaning_under.Answered.{ComparedInEventsUnder};
ghost use Rattle.plain_check.specs.under_base.Refusals.{refusal_of};
ghost use Rattle.event_check.specs.event_check_under.Circuits.{AreMatched};
ghost use Rattle.event_check.specs.event_check_under.Settles.{SettlesInEventsUnder};

use crate::event_answers::{Classed, Reached, Settled, limit_found, reach_pairs};
use crate::event_check_under::circuits::{Circuits, outcome_under};
use crate::event_check_under::event_answers_under::{
    CompareError, Premise, TakeError, Taken, take, widen,
};
use crate::event_check_under::pairs::compare_pairs;
use flat_net::Net;
use obligations::outcome::{LimitAt, Outcome, Settings};
use sec_base::{MAX_CONFLICTS, Words};
use sec_setup::shared_names;
use std::alloc::Global;
use std::mem;

/// Compares the circuits `a` and `b` in the runs whose inputs make the output of the circuit `c` 1 in each cycle, by unfolding their outputs into
/// functions of the inputs at earlier events. It is done as without `c`, each query of a pair with `c` as a further care at the event nodes that have
/// a variable of it; where a pair differs, each cycle of the sequence meets `c`. It refuses, in this order: interfaces that don't match; as `Assume`
/// the first fault of `c`: a latch, a number of outputs that isn't one, an input that isn't shared, a weight at one place above 2,000,000; as
/// `Vacuous` a `c` that no row of inputs meets; what is refused without `c`, in its order; and as `Assume` again a `c` that is too large at the event
/// nodes of all pairs. Where it isn't decided whether some row meets `c`, nothing is compared, and the verdict is that limit.
pub fn compare_in_events_under(
    alloc: Global,
    a: &Net,
    b: &Net,
    c: &Net,
    settings: &Settings,
) -> Result<Outcome, CompareError>
    requires conflicts { settings.now.conflicts ≤ MAX_CONFLICTS }
    requires left { IsComparable a.now }
    requires right { IsComparable b.now }
    requires assumed { IsComparable c.now }
    ensures { ComparedInEventsUnder a.now b.now c.now settings.now result }
{
    match settle_in_events_under(alloc, a, b, c, settings, false) {
        Ok(Settled { outcome, cares: _ }) => Ok(outcome),
        Err(error) => Err(error),
    }
}

/// Compares the circuits so, and with `settles` finds out of each pair, in order, whether both its sides have care together in some frame that meets `c` at
/// each event node that has a variable of the pair. These queries come behind those of the pairs, each with at most as many conflicts.
pub fn settle_in_events_under(
    alloc: Global,
    a: &Net,
    b: &Net,
    c: &Net,
    settings: &Settings,
    settles: bool,
) -> Result<Settled, CompareError>
    requires conflicts { settings.now.conflicts ≤ MAX_CONFLICTS }
    requires left { IsComparable a.now }
    requires right { IsComparable b.now }
    requires assumed { IsComparable c.now }
    ensures { SettlesInEventsUnder settles a.now b.now c.now settings.now result }
{
    a.keeps();
    b.keeps();
    let shared = shared_names(alloc, a, b)?;
    let circuits = Circuits {
        left: a,
        right: b,
        assumed: c,
        shared: &shared,
    };
    match take(alloc, c, &shared, settings.conflicts) {
        Ok(Taken::Met(premise)) => { compare_met(alloc, &circuits, premise, settings, settles) }
        Ok(Taken::Limit(proof)) => {
            let found = limit_found(alloc, LimitAt::Assume(proof));
            Ok(outcome_under(&circuits, Words::new(alloc), found)?)
        }
        Err(error) => Err(refusal_of(error)),
    }
}

/// Why a circuit that isn't taken isn't assumed in a comparison.
fn refusal_of(error: TakeError) -> CompareError
    ensures { result ≡ refusal_of error }
{
    match error {
        TakeError::Fault(fault) => CompareError::Assume(fault),
        TakeError::Vacuous(by) => CompareError::Vacuous(by),
        TakeError::NoMemory => CompareError::NoMemory,
    }
}

/// Compares the circuits under the assumption of this premise.
fn compare_met(
    alloc: Global,
    circuits: &Circuits<'_>,
    premise: Premise,
    settings: &Settings,
    settles: bool,
) -> Result<Settled, CompareError>
    requires conflicts { settings.now.conflicts ≤ MAX_CONFLICTS }
    requires matched { AreMatched circuits.now }
    requires premise { IsPremiseOf circuits.now.shared.now circuits.now.assumed.now (length circuits.now.shared.now) premise }
    ensures { SettlesInEventsUnder settles circuits.now.left.now circuits.now.right.now circuits.now.assumed.now settings.now result }
{
    let (left, right) = (circuits.left, circuits.right);
    left.keeps();
    right.keeps();
    match reach_pairs(alloc, left, right, circuits.shared, settings)? {
        Reached::Pairs(mut classed) => {
            let premise = widen(premise, classed.exposed.len())?;
            compare_classed(alloc, circuits, &mut classed, &premise, settings, settles)
        }
        Reached::Limit(exposed, at) => {
            let found = limit_found(alloc, at);
            Ok(outcome_under(circuits, exposed, found)?)
        }
    }
}

/// Compares the circuits, whose latches have their classes, by their pairs.
fn compare_classed(
    alloc: Global,
    circuits: &Circuits<'_>,
    classed: &mut Classed,
    premise: &Premise,
    settings: &Settings,
    settles: bool,
) -> Result<Settled, CompareError>
    requires conflicts { settings.now.conflicts ≤ MAX_CONFLICTS }
    requires matched { AreMatched circuits.now }
    requires classed { AreClassed circuits.now.left.now circuits.now.right.now settings.now classed.old }
    requires premise { IsPremiseOf circuits.now.shared.now circuits.now.assumed.now (length circuits.now.shared.now + length classed.old.exposed) premise.now }
    ensures { SettlesInEventsUnder settles circuits.now.left.now circuits.now.right.now circuits.now.assumed.now settings.now result }
{
    circuits.left.keeps();
    circuits.right.keeps();
    let found = compare_pairs(
        alloc,
        &mut classed.separated,
        &classed.names,
        &classed.asked,
        premise,
        settings.conflicts,
        settles,
    )?;
    let exposed = mem::replace(&mut classed.exposed, Words::new(alloc));
    Ok(outcome_under(circuits, exposed, found)?)
}
