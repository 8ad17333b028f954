//! What is found of the pairs of two circuits with their class map.

ghost use Rattle.std.specs.Prelude.{◌≡◌, ◌≤◌, true, All, IfOk};
ghost use Rattle.std.specs.List.{AllZip};
ghost use Rattle.event_form.specs.event_agreement.pair_events.View.{IsWithinLimits, side_of_both};
ghost use Rattle.event_settles.specs.Cares.{CareFits};
ghost use Rattle.event_check.specs.event_answers.Asked.{IsPairOf};
ghost use Rattle.event_check.specs.event_answers.class_events.Made.{AreEnablesCounted};
ghost use Rattle.event_check.specs.event_answers.class_events.Separated.{AreSeparated};
ghost use Rattle.event_check.specs.event_answers.Askable.{AreAskable};
ghost use Rattle.event_check.specs.event_answers.Finding.{refusal_of};
ghost use Rattle.event_check.specs.Pairs.{FindsPairs};

use crate::event_answers::{
    Asked, EventFormError, EventPairs, Found, Names, Separated, compare_events, named_findings,
};
use event_form::Events;
use event_form::event_findings::Apart;
use event_settles::{PairCares, settle_pairs};
use event_setup::event_meaning::CompareError;
use sec_base::{MAX_CONFLICTS, NoMemory};
use std::alloc::Global;

/// Compares the pairs of two circuits whose latches have their classes, and where it is asked for finds out whether their sides have care together.
pub(crate) fn compare_pairs(
    alloc: Global,
    separated: &mut Separated,
    names: &Names,
    asked: &Asked,
    conflicts: u32,
    settles: bool,
) -> Result<Found, CompareError>
    requires counted { AreEnablesCounted separated.old.events }
    requires separated { AreSeparated separated.old.events separated.old.aparts.items }
    requires askable { AreAskable separated.old.events names.now asked.now }
    requires conflicts { conflicts ≤ MAX_CONFLICTS }
    ensures { FindsPairs separated.old.events.left separated.old.events.right names.now asked.now conflicts settles result }
{
    let events = &mut separated.events;
    let aparts = separated.aparts.as_slice();
    events.keeps();
    let compared = EventPairs {
        pairs: asked.pairs.as_slice(),
        depths: asked.depths.as_slice(),
        names: &names.columns,
        cut: asked.cut,
    };
    match compare_events(alloc, events, aparts, &compared, conflicts) {
        Ok(findings) => {
            events.keeps();
            let classes = events.classes();
            let cares = cares_of(alloc, events, aparts, &compared, conflicts, settles)?;
            let found = named_findings(alloc, names, findings, classes, cares)?;
            Ok(found)
        }
        Err(error) => Err(refusal_of(error)),
    }
}

/// What is found of the cares of the pairs, where that is asked for.
fn cares_of(
    alloc: Global,
    events: &mut Events,
    aparts: &[Apart],
    compared: &EventPairs<'_>,
    conflicts: u32,
    settles: bool,
) -> Result<PairCares, NoMemory>
    requires separated { AreSeparated events.old aparts.now }
    requires pairs { All (IsPairOf events.old) compared.now.pairs.now }
    requires within { IsWithinLimits events.old }
    requires conflicts { conflicts ≤ MAX_CONFLICTS }
    ensures { IfOk result (λ cares. settles ≡ true → AllZip (CareFits (side_of_both events.old) conflicts) compared.now.pairs.now cares) }
{
    if !settles {
        return Ok(PairCares::new(alloc));
    }
    settle_pairs(alloc, events, aparts, compared, conflicts)
}

/// Why circuits whose pairs can't be unfolded aren't compared.
fn refusal_of(error: EventFormError) -> CompareError
    ensures { result ≡ refusal_of error }
{
    match error {
        EventFormError::TooManyEvents => CompareError::TooManyEvents,
        EventFormError::TooLarge(side) => CompareError::TooLarge(side),
        EventFormError::NoMemory => CompareError::NoMemory,
    }
}
