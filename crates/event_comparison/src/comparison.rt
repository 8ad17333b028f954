//! Comparing the pairs of two circuits in the event form.

ghost use Rattle.std.specs.Prelude.{◌≡◌, ◌≤◌, All, IfOk, OnOk};
ghost use Rattle.event_form.specs.event_findings.unshown_pairs.class_events.Separated.{AreSeparated};
ghost use Rattle.event_form.specs.Asked.{IsLater, IsPairOf};
ghost use Rattle.event_form.specs.Counted.{left_starts, right_starts};
ghost use Rattle.event_form.specs.Refused.{IsRefusedFor};
ghost use Rattle.event_form.specs.Stopped.{IsStoppedFor};
ghost use Rattle.event_form.specs.declared.event_findings.verdict.EventVerdict.TheVariants as event_verdict;
ghost use Rattle.obligations.specs.Asked.{AreAsked as AreQueries};
ghost use Rattle.event_form.specs.event_agreement.pair_events.View.{IsWithinLimits};
ghost use Rattle.event_comparison.specs.Agreement.{CircuitsAgree};
ghost use Rattle.event_comparison.specs.Asked.{AreAskedFrom, StayCounted};
ghost use Rattle.event_comparison.specs.Counted.{ArePairsCounted};
ghost use Rattle.event_comparison.specs.Decided.{AreFound};
ghost use Rattle.event_form.specs.event_findings.Compared.{AreCompared};
ghost use Rattle.event_form.specs.event_findings.Findings.{FindingsFit};

use crate::verdict::show;
use event_form::event_findings::{
    Apart, EventFindings, EventFormError, EventPairs, Events, ask_pairs,
};
use obligations::{Decided, Obligation, decide_all, verdict_at};
use sec_base::MAX_CONFLICTS;
use std::alloc::Global;

/// Unfolds the pairs one after the other, each first in A, then in B, into functions of inputs at event nodes, and decides in order whether both
/// agree wherever both have care, with at most so many conflicts for each. A difference shows that the circuits differ where no latch is cut open
/// and the pair reaches latches of class 0 alone. Where the pair reaches class 0 alone its sequence is shown, which ends in the cycle of its depth;
/// else a frame, and what tells apart each two classes in the paths of its event nodes.
pub fn compare_events(
    alloc: Global,
    events: &mut Events,
    aparts: &[Apart],
    compared: &EventPairs<'_>,
    conflicts: u32,
) -> Result<EventFindings, EventFormError>
    requires pairs { All (IsPairOf events.old) compared.now.pairs.now }
    requires compared { AreCompared events.old.left events.old.right compared.now }
    requires within { IsWithinLimits events.old }
    requires separated { AreSeparated events.old aparts.now }
    requires conflicts { conflicts ≤ MAX_CONFLICTS }
    ensures fits { IfOk result (FindingsFit events.new.left events.new.right compared.now conflicts) }
    ensures agree { IfOk result (λ f. f.verdict ≡ event_verdict.Equal → CircuitsAgree events.new.left events.new.right compared.now.pairs.now) }
    ensures counted { OnOk result (ArePairsCounted compared.now.pairs.now events.old events.new) }
    ensures refused { IsStoppedFor compared.now.pairs.now events.old result }
{
    events.keeps();
    let asked = ask_pairs(alloc, events, compared.pairs, compared.cut)?;
    events.keeps();
    let findings = findings_of(alloc, events, aparts, compared, asked.as_slice(), conflicts)?;
    events.keeps();
    Ok(findings)
}

/// What is found of the pairs by what is asked of them.
fn findings_of(
    alloc: Global,
    events: &mut Events,
    aparts: &[Apart],
    compared: &EventPairs<'_>,
    asked: &[Obligation],
    conflicts: u32,
) -> Result<EventFindings, EventFormError>
    requires from { AreAskedFrom events.old aparts.now compared.now asked.now }
    requires queries { AreQueries events.old.events.graph asked.now }
    requires conflicts { conflicts ≤ MAX_CONFLICTS }
    ensures found { IfOk result (AreFound events.old.events events.new compared.now conflicts asked.now) }
    ensures within { OnOk result (IsWithinLimits events.new) }
    ensures later { OnOk result (IsLater events.old events.new) }
    ensures counted { OnOk result (StayCounted compared.now.pairs.now events.old events.new) }
    ensures refused { IsRefusedFor (left_starts compared.now.pairs.now) (right_starts compared.now.pairs.now) events.old result }
{
    let decided = decide_all(alloc, events.aig(), asked, conflicts)?;
    let Decided {
        results,
        different,
        not_shown,
    } = decided;
    let at = verdict_at(different, not_shown, results.as_slice());
    let verdict = show(
        alloc,
        events,
        aparts,
        compared,
        asked,
        results.as_slice(),
        at,
    )?;
    Ok(EventFindings {
        pairs: results,
        verdict,
    })
}
