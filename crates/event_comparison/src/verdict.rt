//! The verdict of a comparison in the event form, with what shows it.

ghost use Rattle.std.specs.Prelude.{◌≡◌, IfOk, OnOk};
ghost use Rattle.event_form.specs.Asked.{IsLater};
ghost use Rattle.event_form.specs.Counted.{left_starts, right_starts};
ghost use Rattle.event_form.specs.Refused.{IsRefusedFor};
ghost use Rattle.event_form.specs.event_agreement.pair_events.View.{IsWithinLimits};
ghost use Rattle.event_comparison.specs.Asked.{AreAskedFrom, DiffersFirst, IsFoundAt, StayCounted};
ghost use Rattle.event_comparison.specs.Shown.{IsShown, IsShownUnshown};

use event_form::event_findings::{
    Apart, EventFormError, EventPairs, EventVerdict, Events, UnshownPair, tell_apart, unshown_at,
    witness_at,
};
use obligations::outcome::PairResult;
use obligations::{Difference, Obligation, VerdictAt, copy_name};
use std::alloc::Global;

/// The verdict at an obligation. A sequence ends in the cycle of its pair's depth. A pair that isn't shown is unfolded once more.
pub(crate) fn show(
    alloc: Global,
    events: &mut Events,
    aparts: &[Apart],
    compared: &EventPairs<'_>,
    asked: &[Obligation],
    results: &[PairResult],
    at: VerdictAt,
) -> Result<EventVerdict, EventFormError>
    requires from { AreAskedFrom events.old aparts.now compared.now asked.now }
    requires found { IsFoundAt events.old.events asked.now results.now at }
    ensures shown { IfOk result (IsShown events.new compared.now asked.now results.now at) }
    ensures within { OnOk result (IsWithinLimits events.new) }
    ensures later { OnOk result (IsLater events.old events.new) }
    ensures counted { OnOk result (StayCounted compared.now.pairs.now events.old events.new) }
    ensures refused { IsRefusedFor (left_starts compared.now.pairs.now) (right_starts compared.now.pairs.now) events.old result }
{
    events.keeps();
    match at {
        VerdictAt::Equal => Ok(EventVerdict::Equal),
        VerdictAt::Different(difference) => {
            let depths = compared.depths;
            let names = compared.names;
            let witness = witness_at(alloc, events, asked, &difference, depths, names)?;
            Ok(EventVerdict::Different(witness))
        }
        VerdictAt::Limit(place) => {
            let name = copy_name(&results[place].name)?;
            Ok(EventVerdict::Limit(name))
        }
        VerdictAt::NotShown(difference) => {
            let verdict = show_unshown(alloc, events, aparts, compared, asked, &difference)?;
            Ok(verdict)
        }
    }
}

/// The verdict where the first difference isn't decisive: the sequence where its pair reaches class 0 alone, or else the frame and what tells the
/// pair's classes apart.
fn show_unshown(
    alloc: Global,
    events: &mut Events,
    aparts: &[Apart],
    compared: &EventPairs<'_>,
    asked: &[Obligation],
    difference: &Difference,
) -> Result<EventVerdict, EventFormError>
    requires from { AreAskedFrom events.old aparts.now compared.now asked.now }
    requires differs { DiffersFirst events.old.events asked.now difference.now }
    ensures shown { IfOk result (IsShownUnshown events.new compared.now asked.now difference.now) }
    ensures within { OnOk result (IsWithinLimits events.new) }
    ensures later { OnOk result (IsLater events.old events.new) }
    ensures counted { OnOk result (StayCounted compared.now.pairs.now events.old events.new) }
    ensures refused { IsRefusedFor (left_starts compared.now.pairs.now) (right_starts compared.now.pairs.now) events.old result }
{
    events.keeps();
    let told = tell_apart(alloc, events, aparts, &compared.pairs[difference.pair])?;
    events.keeps();
    let Some(apart) = told else {
        let depths = compared.depths;
        let names = compared.names;
        let witness = witness_at(alloc, events, asked, difference, depths, names)?;
        return Ok(EventVerdict::Cut(witness));
    };
    let frame = unshown_at(alloc, events, asked, difference)?;
    Ok(EventVerdict::Events(UnshownPair { frame, apart }))
}
