//! The verdict of a comparison under an assumption, with what shows it.

ghost use Rattle.std.specs.Prelude.{◌≡◌, IfOk, OnOk};
ghost use Rattle.event_form.specs.Asked.{IsLater};
ghost use Rattle.event_form.specs.Counted.{left_starts, right_starts};
ghost use Rattle.event_form.specs.Refused.{IsRefusedFor};
ghost use Rattle.event_form.specs.event_agreement.pair_events.View.{IsWithinLimits};
ghost use Rattle.event_comparison.specs.Asked.{StayCounted};
ghost use Rattle.assume_queries.specs.assume_sequences.Filled.{bit_of};
ghost use Rattle.event_under.specs.event_under_form.event_under_verdicts.Shown.{DiffersFirstUnder, IsFoundUnder, IsShownUnder, IsShownUnshownUnder, IsWitnessUnder};
ghost use Rattle.event_under.specs.event_under_form.Asked.{CanShow, DiffersAt};

use crate::event_under_form::event_witness_under::{
    EventQuestions, frame_of, ready_at, sequence_of,
};
use event_form::EventFormError;
use event_form::event_agreement::pair_events::Events;
use event_form::event_findings::{Apart, EventPairs, EventVerdict, UnshownPair, tell_apart};
use obligations::outcome::{PairResult, Witness};
use obligations::{Difference, Obligation, VerdictAt, copy_name};
use sec_base::{Bits, NoMemory};
use std::alloc::Global;

/// What the verdict is shown by.
#[derive(Drop)]
pub(crate) struct Shows<'a> {
    pub(crate) aparts: &'a [Apart],
    /// What is asked without the assumption,
    pub(crate) asked: &'a [Obligation],
    /// and under it.
    pub(crate) questions: &'a EventQuestions,
    pub(crate) meeting: &'a Bits,
}

/// The verdict at an obligation. A sequence ends in the cycle of its pair's depth. A pair that isn't shown is unfolded once more.
pub(crate) fn show(
    alloc: Global,
    events: &mut Events,
    compared: &EventPairs<'_>,
    shows: &Shows<'_>,
    results: &[PairResult],
    at: VerdictAt,
) -> Result<EventVerdict, EventFormError>
    requires from { CanShow events.old compared.now shows.now }
    requires found { IsFoundUnder shows.now.questions.now results.now at }
    ensures shown { IfOk result (IsShownUnder events.old.events events.new compared.now shows.now.asked.now shows.now.questions.now (bit_of shows.now.meeting.now) results.now at) }
    ensures within { OnOk result (IsWithinLimits events.new) }
    ensures later { OnOk result (IsLater events.old events.new) }
    ensures counted { OnOk result (StayCounted compared.now.pairs.now events.old events.new) }
    ensures refused { IsRefusedFor (left_starts compared.now.pairs.now) (right_starts compared.now.pairs.now) events.old result }
{
    events.keeps();
    match at {
        VerdictAt::Equal => Ok(EventVerdict::Equal),
        VerdictAt::Different(difference) => {
            let witness = sequence_at(alloc, events, compared, shows, &difference)?;
            Ok(EventVerdict::Different(witness))
        }
        VerdictAt::Limit(place) => {
            let name = copy_name(&results[place].name)?;
            Ok(EventVerdict::Limit(name))
        }
        VerdictAt::NotShown(difference) => {
            let verdict = show_unshown(alloc, events, compared, shows, &difference)?;
            Ok(verdict)
        }
    }
}

/// The sequence of a difference.
fn sequence_at(
    alloc: Global,
    events: &Events,
    compared: &EventPairs<'_>,
    shows: &Shows<'_>,
    difference: &Difference,
) -> Result<Witness, NoMemory>
    requires from { CanShow events.now compared.now shows.now }
    requires differs { DiffersAt shows.now.questions.now difference.now }
    ensures { IfOk result (IsWitnessUnder events.now.events compared.now shows.now.asked.now shows.now.questions.now (bit_of shows.now.meeting.now) difference.now) }
{
    events.keeps();
    let graph = events.graph();
    let ready = ready_at(alloc, graph, shows.questions, difference)?;
    sequence_of(
        alloc,
        graph,
        compared,
        shows.asked,
        shows.meeting,
        difference,
        ready,
    )
}

/// The verdict where the first difference isn't decisive: the sequence where its pair reaches class 0 alone, or else the frame and what tells the
/// pair's classes apart.
fn show_unshown(
    alloc: Global,
    events: &mut Events,
    compared: &EventPairs<'_>,
    shows: &Shows<'_>,
    difference: &Difference,
) -> Result<EventVerdict, EventFormError>
    requires from { CanShow events.old compared.now shows.now }
    requires differs { DiffersFirstUnder shows.now.questions.now difference.now }
    ensures shown { IfOk result (IsShownUnshownUnder events.old.events events.new compared.now shows.now.asked.now shows.now.questions.now (bit_of shows.now.meeting.now) difference.now) }
    ensures within { OnOk result (IsWithinLimits events.new) }
    ensures later { OnOk result (IsLater events.old events.new) }
    ensures counted { OnOk result (StayCounted compared.now.pairs.now events.old events.new) }
    ensures refused { IsRefusedFor (left_starts compared.now.pairs.now) (right_starts compared.now.pairs.now) events.old result }
{
    events.keeps();
    let ready = ready_at(alloc, events.graph(), shows.questions, difference)?;
    let pair = &compared.pairs[difference.pair];
    let told = tell_apart(alloc, events, shows.aparts, pair)?;
    events.keeps();
    let Some(apart) = told else {
        let (graph, asked, meeting) = (events.graph(), shows.asked, shows.meeting);
        let witness = sequence_of(alloc, graph, compared, asked, meeting, difference, ready)?;
        return Ok(EventVerdict::Cut(witness));
    };
    let frame = frame_of(alloc, &difference.bits, ready)?;
    Ok(EventVerdict::Events(UnshownPair { frame, apart }))
}
