//! What tells two classes apart.

ghost use Rattle.std.specs.Prelude.{◌<◌, ◌≤◌};
ghost use Rattle.event_form.specs.event_findings.unshown_pairs.class_events.Separated.{AreSeparated, TellsClassesApart};

use crate::event_agreement::pair_events::Events;
use event_classes::Apart;

/// What tells these two classes apart; class 0 stands for `always`. The event graph may have grown since the classes were made
/// (`laws::separated_stay`).
pub fn apart_at<'a>(events: &Events, aparts: &'a [Apart], low: u32, high: u32) -> &'a Apart
    requires separated { AreSeparated events.now aparts.now }
    requires below { low < high }
    requires high { high ≤ events.now.count }
    ensures { TellsClassesApart events.now low high result.now }
{
    &aparts[(high * (high - 1) / 2 + low) as usize]
}
