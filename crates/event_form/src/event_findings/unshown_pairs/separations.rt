//! What tells classes apart, as it is told.

ghost use Rattle.std.specs.Prelude.{◌≡◌, ◌<◌, ◌≤◌, length, All, IfOk, OnOk};
ghost use Rattle.std.specs.List.{AllPairs, AllZip};
ghost use Rattle.event_form.specs.event_findings.unshown_pairs.class_events.Separated.{AreSeparated};
ghost use Rattle.event_form.specs.event_findings.unshown_pairs.Telling.{HaveTold, IsToldAt, two_of};

use crate::event_findings::unshown_pairs::class_events::{Apart, Events};
use crate::{FrameBit, frame_of};
use sec_base::{NoMemory, Seq, Tag};
use std::alloc::Global;

/// What tells two classes apart, as it is told.
#[derive(Drop)]
pub struct ToldSeparation {
    /// The two classes, by their numbers.
    pub low: u32,
    pub high: u32,
    /// The first latch of the lower class, in order of joining, from which the founder of the higher one differs; None for `always`.
    pub low_latch: Option<Tag>,
    /// The founder of the higher class.
    pub high_latch: Tag,
    /// The values of their enables; that of `always` is 1.
    pub left: bool,
    pub right: bool,
    /// A bit for each variable of both enables, in their order. All else is 0. Up to 16 variables no lesser frame tells the classes apart.
    pub frame: Vec<FrameBit>,
}

/// What tells classes apart, in order.
pub type ToldSeparations = Seq<ToldSeparation>;

/// What tells apart each two of these classes, which stand in order: the first from each later one, then the second, and so on.
pub(crate) fn separations_among(
    alloc: Global,
    events: &Events,
    aparts: &[Apart],
    classes: &[u32],
) -> Result<ToldSeparations, NoMemory>
    requires separated { AreSeparated events.now aparts.now }
    requires rising { AllPairs ◌<◌ classes.now }
    requires few { All (λ k. k ≤ events.now.count) classes.now }
    ensures { IfOk result (AllZip (IsToldAt events.now.events aparts.now) (two_of classes.now)) }
{
    let mut told = ToldSeparations::new(alloc);
    for i in 0..classes.len() {
        tell_each(
            alloc,
            events,
            aparts,
            classes[i],
            &classes[i + 1..],
            &mut told,
        )?;
    }
    Ok(told)
}

/// Puts behind the others what tells the class from each of these, which are higher.
fn tell_each(
    alloc: Global,
    events: &Events,
    aparts: &[Apart],
    low: u32,
    others: &[u32],
    told: &mut ToldSeparations,
) -> Result<(), NoMemory>
    requires separated { AreSeparated events.now aparts.now }
    requires above { All (λ k. low < k) others.now }
    requires few { All (λ k. k ≤ events.now.count) others.now }
    ensures { OnOk result (HaveTold events.now.events aparts.now low others.now told.old told.new) }
{
    for j in 0..others.len() {
        let one = tell(alloc, events, aparts, low, others[j])?;
        told.push(one)?;
    }
    Ok(())
}

/// What tells the two classes apart.
fn tell(
    alloc: Global,
    events: &Events,
    aparts: &[Apart],
    low: u32,
    high: u32,
) -> Result<ToldSeparation, NoMemory>
    requires separated { AreSeparated events.now aparts.now }
    requires below { low < high }
    requires few { high ≤ events.now.count }
    ensures { IfOk result (IsToldAt events.now.events aparts.now (low, high)) }
{
    let apart = &aparts[(high * (high - 1) / 2 + low) as usize];
    let graph = events.graph();
    let frame = frame_of(alloc, graph, apart.vars.as_slice(), apart.bits.as_slice())?;
    Ok(ToldSeparation {
        low,
        high,
        low_latch: apart.low,
        high_latch: apart.high,
        left: apart.left,
        right: apart.right,
        frame,
    })
}
