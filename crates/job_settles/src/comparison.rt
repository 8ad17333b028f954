//! Comparing two circuits with the cares of their pairs, in the mode that is asked for.

ghost use Rattle.std.specs.Prelude.{◌≡◌, ◌≤◌, false, []};
ghost use Rattle.flat_net.specs.Comparable.{IsComparable};
ghost use Rattle.job_settles.specs.Settled.{SettledIn, SettledUnderIn};

use circuit_theory::Mode;
use event_check::event_answers::Settled;
use event_check::event_check_under::settle_in_events_under;
use event_check::settle_in_events;
use event_settles::PairCares;
use flat_net::Net;
use job_check::sec_check::{CompareError, compare, compare_under};
use obligations::outcome::{Outcome, Settings};
use sec_base::MAX_CONFLICTS;
use std::alloc::Global;

/// Compares the circuits in a mode (`job_check::sec_check::compare`). In the event mode the cares of the pairs are found out; in the plain mode there are
/// none to be asked about, since each pair is settled from the cycle of its depth on.
pub(crate) fn settle(
    alloc: Global,
    a: &Net,
    b: &Net,
    settings: &Settings,
) -> Result<Settled, CompareError>
    requires always { settings.now.reset ≡ false }
    requires conflicts { settings.now.conflicts ≤ MAX_CONFLICTS }
    requires left { IsComparable a.now }
    requires right { IsComparable b.now }
    ensures { SettledIn settings.now.mode a.now b.now settings.now result }
{
    match settings.mode {
        Mode::Plain => match compare(alloc, a, b, settings) {
            Ok(outcome) => Ok(without_cares(alloc, outcome)),
            Err(error) => Err(error),
        },
        Mode::Event => settle_in_events(alloc, a, b, settings, true),
    }
}

/// The same in the runs whose inputs make the output of the circuit `c` 1 in each cycle.
pub(crate) fn settle_under(
    alloc: Global,
    a: &Net,
    b: &Net,
    c: &Net,
    settings: &Settings,
) -> Result<Settled, CompareError>
    requires always { settings.now.reset ≡ false }
    requires conflicts { settings.now.conflicts ≤ MAX_CONFLICTS }
    requires left { IsComparable a.now }
    requires right { IsComparable b.now }
    requires assumed { IsComparable c.now }
    ensures { SettledUnderIn settings.now.mode a.now b.now c.now settings.now result }
{
    match settings.mode {
        Mode::Plain => match compare_under(alloc, a, b, c, settings) {
            Ok(outcome) => Ok(without_cares(alloc, outcome)),
            Err(error) => Err(error),
        },
        Mode::Event => settle_in_events_under(alloc, a, b, c, settings, true),
    }
}

/// The outcome, where no care is asked about.
fn without_cares(alloc: Global, outcome: Outcome) -> Settled
    ensures { result ≡ record { outcome = outcome; cares = [] } }
{
    Settled {
        outcome,
        cares: PairCares::new(alloc),
    }
}
