//! Comparing two circuits in the mode that is asked for.

ghost use Rattle.std.specs.Prelude.{◌≡◌, ◌≤◌, true, false};
ghost use Rattle.circuit_theory.specs.declared.Mode.TheVariants.{Plain};
ghost use Rattle.flat_net.specs.Comparable.{IsComparable};
ghost use Rattle.event_setup.specs.event_meaning.event_names.event_fits.Compared.{ComparedIn};
ghost use Rattle.event_check.specs.event_check_under.Answered.{ComparedUnderIn};

use crate::compare_under::compare_under as compare_plainly_under;
use circuit_theory::Mode;
use event_check::compare_in_events;
use event_check::event_check_under::compare_in_events_under;
use flat_net::Net;
use obligations::outcome::{Outcome, Settings};
use plain_check::{CompareError, compare_plainly};
use sec_base::MAX_CONFLICTS;
use std::alloc::Global;

/// Compares the circuits in a mode: by cycles (`plain_check::compare_plainly`) or by events (`event_check::compare_in_events`). With `reset` runs begin with
/// the latches' initial values; then the mode is plain, and no latch may be cut open.
pub fn compare(
    alloc: Global,
    a: &Net,
    b: &Net,
    settings: &Settings,
) -> Result<Outcome, CompareError>
    requires plain { settings.now.reset ≡ true → settings.now.mode ≡ Plain }
    requires uncut { settings.now.reset ≡ true → settings.now.expose ≡ false }
    requires conflicts { settings.now.conflicts ≤ MAX_CONFLICTS }
    requires left { IsComparable a.now }
    requires right { IsComparable b.now }
    ensures { ComparedIn settings.now.mode a.now b.now settings.now result }
{
    match settings.mode {
        Mode::Plain => compare_plainly(alloc, a, b, settings),
        Mode::Event => compare_in_events(alloc, a, b, settings),
    }
}

/// Compares the circuits `a` and `b` in a mode, in the runs whose inputs make the output of the circuit `c` 1 in each cycle: by cycles
/// (`crate::compare_under::compare_under`) or by events (`event_check::event_check_under::compare_in_events_under`). With `reset` it is as without `c`.
pub fn compare_under(
    alloc: Global,
    a: &Net,
    b: &Net,
    c: &Net,
    settings: &Settings,
) -> Result<Outcome, CompareError>
    requires plain { settings.now.reset ≡ true → settings.now.mode ≡ Plain }
    requires uncut { settings.now.reset ≡ true → settings.now.expose ≡ false }
    requires conflicts { settings.now.conflicts ≤ MAX_CONFLICTS }
    requires left { IsComparable a.now }
    requires right { IsComparable b.now }
    requires assumed { IsComparable c.now }
    ensures { ComparedUnderIn settings.now.mode a.now b.now c.now settings.now result }
{
    match settings.mode {
        Mode::Plain => compare_plainly_under(alloc, a, b, c, settings),
        Mode::Event => compare_in_events_under(alloc, a, b, c, settings),
    }
}
