//! What is asked of the pairs under an assumption.

ghost use Rattle.std.specs.Prelude.{◌≡◌, length, Err, IfOk};
ghost use Rattle.event_form.specs.event_agreement.pair_events.View.{side_of_both};
ghost use Rattle.event_form.specs.Asked.{AreAsked};
ghost use Rattle.assume_queries.specs.assume_sequences.Assumed.{CanBeAssumed};
ghost use Rattle.event_under.specs.event_under_form.event_under_verdicts.assume_queries.UnderError.TheVariants as asked_error;
ghost use Rattle.event_under.specs.Places.{IsOverAtNodes};
ghost use Rattle.event_under.specs.event_under_form.Asked.{AreAskedAssumed};

use crate::event_under_form::event_witness_under::{EventQuestions, UnderError, ask_under};
use assume_queries::assume_sequences::Premise;
use event_form::event_agreement::pair_events::Events;
use event_form::event_findings::EventPairs;
use obligations::Obligation;
use std::alloc::Global;

/// What is asked of the pairs, each query under the assumption.
pub fn questions_of(
    alloc: Global,
    events: &Events,
    compared: &EventPairs<'_>,
    premise: &Premise,
    asked: &[Obligation],
) -> Result<EventQuestions, UnderError>
    requires premise { CanBeAssumed premise.now (length compared.now.names.now) }
    requires asked { AreAsked (side_of_both events.now) events.now.events compared.now.cut compared.now.pairs.now asked.now }
    ensures asked { IfOk result (AreAskedAssumed events.now compared.now premise.now asked.now) }
    ensures over { result ≡ Err asked_error.TooLarge → IsOverAtNodes premise.now.weight (side_of_both events.now) compared.now.pairs.now }
{
    events.keeps();
    ask_under(alloc, events.graph(), &premise.own, premise.weight, asked)
}
