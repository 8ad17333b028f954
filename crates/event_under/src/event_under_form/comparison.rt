//! Comparing the pairs of two circuits in the event form under an assumption.

ghost use Rattle.std.specs.Prelude.{◌≡◌, ◌≤◌, length, All, Err, IfOk, OnOk};
ghost use Rattle.event_form.specs.event_agreement.pair_events.View.{IsWithinLimits};
ghost use Rattle.event_form.specs.Asked.{IsLater, IsPairOf};
ghost use Rattle.event_form.specs.Counted.{left_starts, right_starts};
ghost use Rattle.event_form.specs.Refused.{IsRefusedFor};
ghost use Rattle.event_comparison.specs.Asked.{StayCounted};
ghost use Rattle.event_form.specs.event_findings.Compared.{AreCompared};
ghost use Rattle.event_form.specs.event_findings.unshown_pairs.class_events.Separated.{AreSeparated};
ghost use Rattle.assume_queries.specs.assume_sequences.Assumed.{CanBeAssumed};
ghost use Rattle.event_under.specs.event_under_form.Asked.{CanShow};
ghost use Rattle.event_under.specs.event_under_form.Formed.{AreFoundUnder, ArePairsLight, ArePairsOver, AreRefusedUnder, FindingsFitAssumed};
ghost use Rattle.event_under.specs.declared.event_under_form.error.EventUnderError.TheVariants as under_error;

use crate::event_under_form::asking::questions_of;
use crate::event_under_form::error::EventUnderError;
use crate::event_under_form::verdict::{Shows, show};
use assume_queries::assume_sequences::Premise;
use event_form::event_agreement::pair_events::Events;
use event_form::event_findings::{Apart, EventFindings, EventPairs};
use event_form::{EventFormError, ask_pairs};
use obligations::{Decided, decide_all, verdict_at};
use sec_base::MAX_CONFLICTS;
use std::alloc::Global;

/// Compares the pairs as without an assumption, each query with the assumption as a further care at the event nodes that have a variable of it.
/// The sequence of a difference has the premise's row in each cycle at whose node no variable of both sides stands. Once all pairs are unfolded,
/// `AssumptionTooLarge` comes exactly where the assumption weighs more than 2,000,000 at all event nodes of the pairs' variables, with one more
/// for each node of each pair.
pub fn compare_events_under(
    alloc: Global,
    events: &mut Events,
    aparts: &[Apart],
    compared: &EventPairs<'_>,
    premise: &Premise,
    conflicts: u32,
) -> Result<EventFindings, EventUnderError>
    requires pairs { All (IsPairOf events.old) compared.now.pairs.now }
    requires compared { AreCompared events.old.left events.old.right compared.now }
    requires within { IsWithinLimits events.old }
    requires separated { AreSeparated events.old aparts.now }
    requires premise { CanBeAssumed premise.now (length compared.now.names.now) }
    requires conflicts { conflicts ≤ MAX_CONFLICTS }
    ensures fits { IfOk result (FindingsFitAssumed events.new.left events.new.right compared.now premise.now conflicts) }
    ensures light { OnOk result (ArePairsLight premise.now.weight compared.now.pairs.now events.old events.new) }
    ensures over { result ≡ Err under_error.AssumptionTooLarge → ArePairsOver premise.now.weight compared.now.pairs.now events.old events.new }
    ensures refused { AreRefusedUnder compared.now.pairs.now events.old result }
{
    events.keeps();
    let obligations = ask_pairs(alloc, events, compared.pairs, compared.cut)?;
    events.keeps();
    let asked = obligations.as_slice();
    let questions = questions_of(alloc, events, compared, premise, asked)?;
    let shows = Shows {
        aparts,
        asked,
        questions: &questions,
        meeting: &premise.meeting,
    };
    let findings = findings_of(alloc, events, compared, &shows, conflicts)?;
    Ok(findings)
}

/// What is found of the pairs by what is asked of them under the assumption.
fn findings_of(
    alloc: Global,
    events: &mut Events,
    compared: &EventPairs<'_>,
    shows: &Shows<'_>,
    conflicts: u32,
) -> Result<EventFindings, EventFormError>
    requires from { CanShow events.old compared.now shows.now }
    requires conflicts { conflicts ≤ MAX_CONFLICTS }
    ensures found { IfOk result (AreFoundUnder events.old.events events.new compared.now conflicts shows.now) }
    ensures within { OnOk result (IsWithinLimits events.new) }
    ensures later { OnOk result (IsLater events.old events.new) }
    ensures counted { OnOk result (StayCounted compared.now.pairs.now events.old events.new) }
    ensures refused { IsRefusedFor (left_starts compared.now.pairs.now) (right_starts compared.now.pairs.now) events.old result }
{
    let questions = shows.questions;
    let decided = decide_all(alloc, &questions.aig, questions.asked.as_slice(), conflicts)?;
    let Decided {
        results,
        different,
        not_shown,
    } = decided;
    let at = verdict_at(different, not_shown, results.as_slice());
    let verdict = show(alloc, events, compared, shows, results.as_slice(), at)?;
    Ok(EventFindings {
        pairs: results,
        verdict,
    })
}
