//! The steps of a comparison in the event form up to its pairs.

ghost use Rattle.std.specs.Prelude.{◌≡◌, ◌≤◌, IfOk};
ghost use Rattle.circuit_theory.specs.Interface.{shared_inputs};
ghost use Rattle.flat_net.specs.Comparable.{IsComparable};
ghost use Rattle.flat_net.specs.View.{ports_of};
ghost use Rattle.sec_setup.specs.Matching.{InterfacesMatch};
ghost use Rattle.event_setup.specs.Recovered.{AreBothMarked, AreKnown};
ghost use Rattle.event_setup.specs.Setup.{IsEventSetupOf};
ghost use Rattle.event_setup.specs.event_meaning.event_names.event_fits.Named.{latch_names};
ghost use Rattle.event_check.specs.event_answers.Reached.{ReachesPairs};

use crate::event_answers::limits::{unclassed, unrecovered};
use base_tables::NameTable;
use event_comparison::{Separated, events_of};
use event_setup::event_meaning::event_names::{
    CompareError, EnabledLatches, EventSetup, Names, latch_names, recover_both, set_up_events,
};
use flat_net::Net;
use obligations::outcome::{LimitAt, Settings};
use sec_base::{Ids, MAX_CONFLICTS, NoMemory, Words};
use sec_setup::ports::SignalPairs;
use std::alloc::Global;

/// The pairs that are compared, with their depths, and whether latches are cut open.
#[derive(Drop)]
pub struct Asked {
    pub pairs: SignalPairs,
    pub depths: Ids,
    pub cut: bool,
}

/// Two circuits whose latches have their classes, with the names of inputs and latches, the pairs, and the names of the exposed latches.
pub struct Classed {
    pub separated: Separated,
    pub names: Names,
    pub asked: Asked,
    pub exposed: Words,
}

/// It is let go by one call: an owner isn't taken apart field by field at each way out.
impl Drop for Classed {
    fn drop(self) {
        let Classed {
            separated: _,
            names: _,
            asked: _,
            exposed: _,
        } = self;
    }
}

/// How far a comparison comes before its pairs.
#[derive(Drop)]
pub enum Reached {
    /// The pairs can be asked about.
    Pairs(Classed),
    /// A query of an enable or of a class met the limit, with the latches of these names exposed.
    Limit(Words, LimitAt),
}

/// Takes two circuits whose interfaces match, with the names of the inputs that they share, up to their pairs. Latches with a load enable are
/// recovered first, and those of both circuits that load together are of one class. Where latches may be cut open, a minimal cut of them becomes
/// inputs, self-edges of enabled latches not counted. It refuses, in this order: the cone of a latch of A that is in its own, of B, that is too
/// large; a cycle of A's latches, a cycle of B's, or where latches may be cut open one that no latch breaks that both circuits name; what passes its
/// number first while classes are made.
pub fn reach_pairs(
    alloc: Global,
    a: &Net,
    b: &Net,
    shared: &NameTable,
    settings: &Settings,
) -> Result<Reached, CompareError>
    requires conflicts { settings.now.conflicts ≤ MAX_CONFLICTS }
    requires left { IsComparable a.now }
    requires right { IsComparable b.now }
    requires matches { InterfacesMatch a.now b.now }
    requires shared { shared.now ≡ shared_inputs (ports_of a.now) (ports_of b.now) }
    ensures { ReachesPairs a.now b.now settings.now result }
{
    match recover_both(alloc, a, b, settings.conflicts) {
        Ok(enabled) => reach_recovered(alloc, a, b, shared, &enabled, settings),
        Err(error) => {
            let at = unrecovered(error)?;
            Ok(Reached::Limit(Words::new(alloc), at))
        }
    }
}

/// The same where it is known which latches are enabled.
fn reach_recovered(
    alloc: Global,
    a: &Net,
    b: &Net,
    shared: &NameTable,
    enabled: &EnabledLatches,
    settings: &Settings,
) -> Result<Reached, CompareError>
    requires conflicts { settings.now.conflicts ≤ MAX_CONFLICTS }
    requires left { IsComparable a.now }
    requires right { IsComparable b.now }
    requires matches { InterfacesMatch a.now b.now }
    requires shared { shared.now ≡ shared_inputs (ports_of a.now) (ports_of b.now) }
    requires enabled { AreBothMarked a.now b.now enabled.now }
    requires left_known { AreKnown a.now }
    requires right_known { AreKnown b.now }
    ensures { ReachesPairs a.now b.now settings.now result }
{
    let setup = set_up_events(alloc, a, b, enabled, shared, settings.expose)?;
    reach_set_up(alloc, a, b, setup, settings)
}

/// The names of the latches of both circuits.
fn both_latch_names(alloc: Global, setup: &EventSetup) -> Result<(Words, Words), NoMemory>
    ensures { IfOk result (λ names. (names.0 ≡ latch_names setup.now.left.net) × (names.1 ≡ latch_names setup.now.right.net)) }
{
    let left_latches = latch_names(alloc, setup.left.net())?;
    let right_latches = latch_names(alloc, setup.right.net())?;
    Ok((left_latches, right_latches))
}

/// The same by this setup.
fn reach_set_up(
    alloc: Global,
    a: &Net,
    b: &Net,
    setup: EventSetup,
    settings: &Settings,
) -> Result<Reached, CompareError>
    requires conflicts { settings.now.conflicts ≤ MAX_CONFLICTS }
    requires matches { InterfacesMatch a.now b.now }
    requires left_known { AreKnown a.now }
    requires right_known { AreKnown b.now }
    requires setup { IsEventSetupOf a.now b.now settings.now.expose setup }
    ensures { ReachesPairs a.now b.now settings.now result }
{
    setup.left.keeps();
    setup.right.keeps();
    let latches = both_latch_names(alloc, &setup)?;
    let (left_latches, right_latches) = latches;
    let cut = setup.is_cut();
    let EventSetup {
        left,
        right,
        inputs: _inputs,
        exposed,
        columns,
        pairs,
        depths,
    } = setup;
    let names = Names {
        columns,
        left: left_latches,
        right: right_latches,
    };
    match events_of(alloc, left, right, settings.conflicts) {
        Ok(separated) => {
            separated.events.keeps();
            Ok(Reached::Pairs(Classed {
                separated,
                names,
                asked: Asked { pairs, depths, cut },
                exposed,
            }))
        }
        Err(error) => {
            let at = unclassed(&names, error)?;
            Ok(Reached::Limit(exposed, at))
        }
    }
}
