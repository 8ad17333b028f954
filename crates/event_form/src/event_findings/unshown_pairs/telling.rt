//! What tells the classes of a pair apart.

ghost use Rattle.std.specs.Prelude.{[], ◌∷◌, IfOk, OnOk};
ghost use Rattle.event_form.specs.event_findings.unshown_pairs.class_events.Separated.{AreSeparated};
ghost use Rattle.event_form.specs.Asked.{IsLater, IsPairOf};
ghost use Rattle.event_form.specs.Refused.{IsRefusedFor};
ghost use Rattle.event_form.specs.Functions.{signal_start};
ghost use Rattle.event_form.specs.event_agreement.pair_events.View.{IsWithinLimits};
ghost use Rattle.event_form.specs.event_findings.unshown_pairs.Reached.{StaysCounted};
ghost use Rattle.event_form.specs.event_findings.unshown_pairs.Separations.{AreToldFor};

use crate::EventFormError;
use crate::event_findings::unshown_pairs::class_events::{Apart, Events};
use crate::event_findings::unshown_pairs::classes::classes_into;
use crate::event_findings::unshown_pairs::reach::reach_of;
use crate::event_findings::unshown_pairs::separations::{ToldSeparations, separations_among};
use sec_setup::ports::SignalPair;
use std::alloc::Global;

/// What tells apart each two classes that occur in the paths of the event nodes which the pair reaches, in order; None where both sides reach
/// latches of class 0 alone. The pair is unfolded for that.
pub fn tell_apart(
    alloc: Global,
    events: &mut Events,
    aparts: &[Apart],
    pair: &SignalPair,
) -> Result<Option<ToldSeparations>, EventFormError>
    requires pair { IsPairOf events.old pair.now }
    requires within { IsWithinLimits events.old }
    requires separated { AreSeparated events.old aparts.now }
    ensures told { IfOk result (AreToldFor events.new.left events.new.right pair.now) }
    ensures within { OnOk result (IsWithinLimits events.new) }
    ensures later { OnOk result (IsLater events.old events.new) }
    ensures counted { OnOk result (StaysCounted pair.now events.old events.new) }
    ensures refused { IsRefusedFor (signal_start pair.now.left.0 ∷ []) (signal_start pair.now.right.0 ∷ []) events.old result }
{
    events.keeps();
    let reach = reach_of(alloc, events, pair)?;
    events.keeps();
    if reach.only_always {
        return Ok(None);
    }
    let classes = classes_into(alloc, events.graph(), reach.nodes.as_slice())?;
    let told = separations_among(alloc, events, aparts, classes.as_slice())?;
    Ok(Some(told))
}
