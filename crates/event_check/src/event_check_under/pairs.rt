//! What is found under an assumption of the pairs of two circuits with their class map.

ghost use Rattle.std.specs.Prelude.{◌≡◌, ◌≤◌, ℕ, List, true, length, All, IfOk};
ghost use Rattle.std.specs.List.{AllZip};
ghost use Rattle.flat_net.specs.View.{NetView};
ghost use Rattle.assume_laws.specs.assume_shape.Shape.{assumption_of};
ghost use Rattle.event_form.specs.event_agreement.pair_events.View.{IsWithinLimits, side_of_both};
ghost use Rattle.event_settles.specs.Cares.{CareFitsUnder};
ghost use Rattle.event_check.specs.event_answers.Asked.{IsPairOf};
ghost use Rattle.event_check.specs.event_answers.class_events.Made.{AreEnablesCounted};
ghost use Rattle.event_check.specs.event_answers.class_events.Separated.{AreSeparated};
ghost use Rattle.assume_queries.specs.assume_sequences.Assumed.{CanBeAssumed, IsAssumedBy};
ghost use Rattle.event_check.specs.event_answers.Askable.{AreAskable};
ghost use Rattle.event_check.specs.event_check_under.event_answers_under.Pairs.{FindsPairsUnder};
ghost use Rattle.event_check.specs.event_check_under.Refusals.{refusal_under};

use crate::event_answers::{Asked, EventPairs, Found, Names, Separated, named_findings};
use crate::event_check_under::event_answers_under::{CompareError, Premise};
use assume_laws::assume_shape::ShapeFault;
use event_form::Events;
use event_form::event_findings::Apart;
use event_settles::{PairCares, settle_pairs_under};
use event_under::event_under_form::{EventUnderError, compare_events_under};
use sec_base::{MAX_CONFLICTS, NoMemory};
use std::alloc::Global;

/// Compares the pairs of two circuits whose latches have their classes, under the assumption of this premise, and where it is asked for finds out
/// whether their sides have care together.
pub(crate) fn compare_pairs(
    alloc: Global,
    separated: &mut Separated,
    names: &Names,
    asked: &Asked,
    premise: &Premise,
    conflicts: u32,
    settles: bool,
) -> Result<Found, CompareError>
    requires counted { AreEnablesCounted separated.old.events }
    requires separated { AreSeparated separated.old.events separated.old.aparts.items }
    requires askable { AreAskable separated.old.events names.now asked.now }
    requires premise { CanBeAssumed premise.now (length names.now.columns) }
    requires conflicts { conflicts ≤ MAX_CONFLICTS }
    ensures { FindsPairsUnder separated.old.events.left separated.old.events.right names.now asked.now premise.now conflicts settles result }
{
    let events = &mut separated.events;
    let aparts = separated.aparts.as_slice();
    events.keeps();
    let compared = EventPairs {
        pairs: asked.pairs.as_slice(),
        depths: asked.depths.as_slice(),
        names: &names.columns,
        cut: asked.cut,
    };
    match compare_events_under(alloc, events, aparts, &compared, premise, conflicts) {
        Ok(findings) => {
            events.keeps();
            let classes = events.classes();
            let cares = cares_of(
                alloc, events, aparts, &compared, premise, conflicts, settles,
            )?;
            let found = named_findings(alloc, names, findings, classes, cares)?;
            Ok(found)
        }
        Err(error) => {
            events.keeps();
            Err(refusal_under(error))
        }
    }
}

/// What is found of the cares of the pairs, where that is asked for.
fn cares_of(
    alloc: Global,
    events: &mut Events,
    aparts: &[Apart],
    compared: &EventPairs<'_>,
    premise: &Premise,
    conflicts: u32,
    settles: bool,
) -> Result<PairCares, NoMemory>
    requires separated { AreSeparated events.old aparts.now }
    requires pairs { All (IsPairOf events.old) compared.now.pairs.now }
    requires within { IsWithinLimits events.old }
    requires premise { CanBeAssumed premise.now (length compared.now.names.now) }
    requires conflicts { conflicts ≤ MAX_CONFLICTS }
    ensures { IfOk result (λ cares. settles ≡ true → (n : NetView) (inputs : List ℕ) (output size : ℕ) → IsAssumedBy premise.now (length compared.now.names.now) n inputs output size →
        AllZip (CareFitsUnder (assumption_of n inputs output) (side_of_both events.old) conflicts) compared.now.pairs.now cares) }
{
    if !settles {
        return Ok(PairCares::new(alloc));
    }
    settle_pairs_under(alloc, events, aparts, compared, premise, conflicts)
}

/// Why circuits whose pairs can't be unfolded, or are too many for the assumption, aren't compared.
fn refusal_under(error: EventUnderError) -> CompareError
    ensures { result ≡ refusal_under error }
{
    match error {
        EventUnderError::TooManyEvents => CompareError::TooManyEvents,
        EventUnderError::TooLarge(side) => CompareError::TooLarge(side),
        EventUnderError::AssumptionTooLarge => CompareError::Assume(ShapeFault::TooLarge),
        EventUnderError::NoMemory => CompareError::NoMemory,
    }
}
