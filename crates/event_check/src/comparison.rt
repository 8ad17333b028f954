//! The order of the steps of a comparison in the event form.

ghost use Rattle.std.specs.Prelude.{◌≡◌, ◌≤◌, length};
ghost use Rattle.circuit_theory.specs.Interface.{shared_inputs};
ghost use Rattle.flat_net.specs.Comparable.{IsComparable};
ghost use Rattle.flat_net.specs.View.{ports_of};
ghost use Rattle.sec_setup.specs.Matching.{InterfacesMatch};
ghost use Rattle.event_setup.specs.event_meaning.event_names.event_fits.Compared.{ComparedInEvents};
ghost use Rattle.event_check.specs.event_answers.Reached.{AreClassed};
ghost use Rattle.event_check.specs.event_answers.Settles.{SettlesInEvents};

use crate::event_answers::{Classed, Reached, Settled, limit_found, outcome_of, reach_pairs};
use crate::pairs::compare_pairs;
use event_setup::event_meaning::CompareError;
use flat_net::Net;
use obligations::outcome::{Outcome, Settings};
use sec_base::{MAX_CONFLICTS, Words};
use sec_setup::shared_names;
use std::alloc::Global;
use std::mem;

/// Compares the circuits by unfolding their outputs into functions of the inputs at earlier events. Latches with a load enable are recovered first,
/// and those of both circuits that load together are of one class. Where latches may be cut open, a minimal cut of them becomes inputs, self-edges
/// of enabled latches not counted, and what they take over is compared as the outputs are. It refuses, in this order: interfaces that don't match;
/// the cone of a latch of A that is in its own, of B, that is too large; a cycle of A's latches, a cycle of B's, or where latches may be cut open
/// one that no latch breaks that both circuits name; what passes its number first while classes are made, and then while the pairs are unfolded.
/// Where a query meets the limit before the pairs, none is compared, and the verdict is that limit.
pub fn compare_in_events(
    alloc: Global,
    a: &Net,
    b: &Net,
    settings: &Settings,
) -> Result<Outcome, CompareError>
    requires conflicts { settings.now.conflicts ≤ MAX_CONFLICTS }
    requires left { IsComparable a.now }
    requires right { IsComparable b.now }
    ensures { ComparedInEvents a.now b.now settings.now result }
{
    match settle_in_events(alloc, a, b, settings, false) {
        Ok(Settled { outcome, cares: _ }) => Ok(outcome),
        Err(error) => Err(error),
    }
}

/// Compares the circuits so, and with `settles` finds out of each pair, in order, whether both its sides have care together in some frame. These queries
/// come behind those of the pairs, each with at most as many conflicts.
pub fn settle_in_events(
    alloc: Global,
    a: &Net,
    b: &Net,
    settings: &Settings,
    settles: bool,
) -> Result<Settled, CompareError>
    requires conflicts { settings.now.conflicts ≤ MAX_CONFLICTS }
    requires left { IsComparable a.now }
    requires right { IsComparable b.now }
    ensures { SettlesInEvents settles a.now b.now settings.now result }
{
    a.keeps();
    b.keeps();
    let shared = shared_names(alloc, a, b)?;
    match reach_pairs(alloc, a, b, &shared, settings)? {
        Reached::Pairs(mut classed) => {
            compare_classed(alloc, a, b, shared.len(), &mut classed, settings, settles)
        }
        Reached::Limit(exposed, at) => {
            let found = limit_found(alloc, at);
            Ok(outcome_of(a, b, shared.len(), None, exposed, found))
        }
    }
}

/// Compares the circuits, which share so many inputs, by their pairs.
fn compare_classed(
    alloc: Global,
    a: &Net,
    b: &Net,
    inputs: u32,
    classed: &mut Classed,
    settings: &Settings,
    settles: bool,
) -> Result<Settled, CompareError>
    requires conflicts { settings.now.conflicts ≤ MAX_CONFLICTS }
    requires left { IsComparable a.now }
    requires right { IsComparable b.now }
    requires matches { InterfacesMatch a.now b.now }
    requires inputs { inputs ≡ length (shared_inputs (ports_of a.now) (ports_of b.now)) }
    requires classed { AreClassed a.now b.now settings.now classed.old }
    ensures { SettlesInEvents settles a.now b.now settings.now result }
{
    a.keeps();
    b.keeps();
    let found = compare_pairs(
        alloc,
        &mut classed.separated,
        &classed.names,
        &classed.asked,
        settings.conflicts,
        settles,
    )?;
    let exposed = mem::replace(&mut classed.exposed, Words::new(alloc));
    Ok(outcome_of(a, b, inputs, None, exposed, found))
}
