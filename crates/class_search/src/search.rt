//! The search for an enable's class.

ghost use Rattle.std.specs.Prelude.{◌≡◌, ◌+◌, ◌^◌, ◌<◌, ◌≤◌, [], length, All, IfOk, IfErr};
ghost use Rattle.event_nodes.specs.Nodes.{GrowsEvents};
ghost use Rattle.class_search.specs.declared.compare.Enable.{Enable};
ghost use Rattle.class_search.specs.Comparing.{IsReadyEnable};
ghost use Rattle.class_search.specs.Told.{IsAlwaysTold};
ghost use Rattle.class_search.specs.Search.{AreReadyClasses, IsFit, IsUnfit, IsFound, IsStopped};

use crate::class::Class;
use crate::compare::{Compared, Enable, compare_always};
use crate::fitting::first_unlike;
use crate::told::{Difference, Told, told_by};
use event_nodes::event_variables::{EventGraph, MAX_CONFLICTS, NoMemory};
use pair_decide::{Decision, Proof};
use std::alloc::{AllocFailed, Global};

/// The most nodes of the event graph while classes are made.
const NODES: usize = 536_870_912;

/// Where an enable finds its class.
#[derive(Drop)]
pub enum Fit {
    /// `always`.
    Always,
    /// The class at this place, the first one all of whose members agree.
    Joins(usize),
    /// None: what tells the enable from `always`, and from each class.
    Founds(Difference, Vec<Told>),
}

/// Why an enable finds no class.
#[derive(Drop)]
pub enum Unfit {
    /// The query with `always` met the limit.
    Always(Proof),
    /// The query with a member met it: the place of the class, and that of the member.
    Member(usize, usize, Proof),
    /// Memory was wanted.
    NoMemory,
}

impl From<NoMemory> for Unfit {
    ghost use Rattle.std.specs.Prelude.{◌≡◌};
    ghost use Rattle.class_search.specs.declared.search.Unfit.TheVariants as unfit;

    ghost from_gives = { λ _ e. e ≡ unfit.NoMemory };

    fn from(_error: NoMemory) -> Unfit {
        Unfit::NoMemory
    }
}

impl<T: Drop> From<AllocFailed<T>> for Unfit {
    ghost use Rattle.std.specs.Prelude.{◌≡◌};
    ghost use Rattle.class_search.specs.declared.search.Unfit.TheVariants as unfit;

    ghost from_gives = { λ _ e. e ≡ unfit.NoMemory };

    fn from(_error: AllocFailed<T>) -> Unfit {
        Unfit::NoMemory
    }
}

/// The first class that fits the enable: `always`, where the enable is 1 wherever it has care; else the first class all of whose members agree with it wherever both have care; else none. `NoMemory` comes also where the
/// event graph might get 2^29 nodes.
pub fn first_fit(
    alloc: Global,
    events: &mut EventGraph,
    classes: &[Class],
    latch: &Enable,
    conflicts: u32,
) -> Result<Fit, Unfit>
    requires classes { AreReadyClasses events.old classes.now }
    requires latch { IsReadyEnable events.old latch.now }
    requires conflicts { conflicts ≤ MAX_CONFLICTS }
    ensures fit { IfOk result (IsFit events.old events.new classes.now latch.now conflicts) }
    ensures unfit { IfErr result (IsUnfit events.old events.new classes.now latch.now conflicts) }
    ensures ready { (x : Enable) → IsReadyEnable events.old x → IsReadyEnable events.new x }
    ensures grows { GrowsEvents events.old events.new }
    ensures room { length events.old.graph < 2 ^ 29 → length events.new.graph < 2 ^ 29 }
    ensures rest { events.new ≡ record events.old { graph = events.new.graph } }
{
    let Compared { vars, decision } = compare_always(alloc, events, latch, conflicts)?;
    match decision {
        Decision::Same(_) => Ok(Fit::Always),
        Decision::Limit(proof) => Err(Unfit::Always(proof)),
        Decision::Differs(bits) => {
            let always = Difference { vars, bits };
            search_on(alloc, events, classes, latch, always, conflicts)
        }
    }
}

/// The first class that fits, where this tells the enable from `always`.
fn search_on(
    alloc: Global,
    events: &mut EventGraph,
    classes: &[Class],
    latch: &Enable,
    always: Difference,
    conflicts: u32,
) -> Result<Fit, Unfit>
    requires classes { AreReadyClasses events.old classes.now }
    requires latch { IsReadyEnable events.old latch.now }
    requires always { IsAlwaysTold events.old latch.now conflicts always }
    requires conflicts { conflicts ≤ MAX_CONFLICTS }
    ensures fit { IfOk result (IsFit events.old events.new classes.now latch.now conflicts) }
    ensures unfit { IfErr result (IsUnfit events.old events.new classes.now latch.now conflicts) }
    ensures ready { (x : Enable) → IsReadyEnable events.old x → IsReadyEnable events.new x }
    ensures grows { GrowsEvents events.old events.new }
    ensures room { length events.old.graph < 2 ^ 29 → length events.new.graph < 2 ^ 29 }
    ensures rest { events.new ≡ record events.old { graph = events.new.graph } }
{
    let mut told = Vec::new(alloc);
    match search(alloc, events, classes, latch, &mut told, conflicts)? {
        Some(place) => Ok(Fit::Joins(place)),
        None => Ok(Fit::Founds(always, told)),
    }
}

/// The place of the first class all of whose members agree with the enable; what tells it from those before is put behind `told`.
fn search(
    alloc: Global,
    events: &mut EventGraph,
    classes: &[Class],
    latch: &Enable,
    told: &mut Vec<Told>,
    conflicts: u32,
) -> Result<Option<usize>, Unfit>
    requires classes { AreReadyClasses events.old classes.now }
    requires latch { IsReadyEnable events.old latch.now }
    requires conflicts { conflicts ≤ MAX_CONFLICTS }
    requires none { told.old.items ≡ [] }
    ensures found { IfOk result (IsFound events.old events.new classes.now latch.now conflicts told.new.items) }
    ensures stopped { IfErr result (IsStopped events.old events.new classes.now latch.now conflicts) }
    ensures ready { (x : Enable) → IsReadyEnable events.old x → IsReadyEnable events.new x }
    ensures grows { GrowsEvents events.old events.new }
    ensures room { length events.old.graph < 2 ^ 29 → length events.new.graph < 2 ^ 29 }
    ensures rest { events.new ≡ record events.old { graph = events.new.graph } }
{
    for place in 0..classes.len() {
        let members = classes[place].enables.as_slice();
        if events.size() as usize + members.len() >= NODES {
            return Err(Unfit::NoMemory);
        }
        let found = first_unlike(alloc, events, members, latch, conflicts)?;
        events.keeps();
        let Some(unlike) = found else {
            return Ok(Some(place));
        };
        match told_by(place, unlike) {
            Ok(one) => told.push(one)?,
            Err(unfit) => return Err(unfit),
        }
    }
    Ok(None)
}
