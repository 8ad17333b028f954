//! Names of inputs and latches in place of their numbers.

ghost use Rattle.std.specs.Prelude.{◌≡◌, option_map, All, IfOk};
ghost use Rattle.std.specs.List.{AllZip};
ghost use Rattle.event_setup.specs.event_meaning.event_names.event_fits.Named.{latch_names, latch_of, NamesSeparation, NamesSpot, NamesUnshown, NamesVerdict};
ghost use Rattle.event_setup.specs.event_meaning.event_names.Nameable.{CanBeNamed, IsInputIn, IsLatchIn, IsOtherIn, IsSeparationIn, IsUnshownIn};

use crate::event_meaning::event_names::event_fits::{
    EventVerdict, Frame, FrameBit, LimitAt, Separation, Separations, Spot, Spots, ToldSeparation,
    Unshown, UnshownFrame, UnshownPair, Verdict, Why,
};
use flat_net::Net;
use sec_base::{NoMemory, Seq, Side, Tag, Word, Words};
use std::alloc::Global;

/// The names of the inputs by their numbers, and of the latches of both circuits by their positions.
#[derive(Drop)]
pub struct Names {
    pub columns: Words,
    pub left: Words,
    pub right: Words,
}

/// The names of the net's latches.
pub fn latch_names(alloc: Global, net: &Net) -> Result<Words, NoMemory>
    ensures { IfOk result (λ names. names ≡ latch_names net.now) }
{
    let mut names = Words::new(alloc);
    for latch in net.latches() {
        names.push(latch.name.copy()?)?;
    }
    Ok(names)
}

/// The latch of the tag, by its circuit and its name.
pub fn named_latch(names: &Names, tag: Tag) -> Result<(Side, Word), NoMemory>
    requires { IsLatchIn names.now tag }
    ensures { IfOk result (λ x. x ≡ latch_of names.now.left names.now.right tag) }
{
    let latches = match tag.side {
        Side::A => &names.left,
        Side::B => &names.right,
    };
    let name = latches.as_slice()[tag.latch as usize].copy()?;
    Ok((tag.side, name))
}

/// The same of a tag that may be there.
pub fn named_other(names: &Names, tag: Option<Tag>) -> Result<Option<(Side, Word)>, NoMemory>
    requires { IsOtherIn names.now tag }
    ensures { IfOk result (λ x. x ≡ option_map (latch_of names.now.left names.now.right) tag) }
{
    match tag {
        Some(tag) => Ok(Some(named_latch(names, tag)?)),
        None => Ok(None),
    }
}

/// The bit of an input at an event node, the input by its name.
fn named_spot(alloc: Global, columns: &Words, bit: &FrameBit) -> Result<Spot, NoMemory>
    requires { IsInputIn columns.now bit.now }
    ensures { IfOk result (NamesSpot columns.now bit.now) }
{
    let path = Seq::from_vec(bit.path.as_slice().to_vec(alloc)?);
    let input = columns.as_slice()[bit.input as usize].copy()?;
    Ok(Spot {
        path,
        input,
        bit: bit.bit,
    })
}

/// The frame of these bits.
fn named_frame(alloc: Global, columns: &Words, bits: &[FrameBit]) -> Result<Frame, NoMemory>
    requires { All (IsInputIn columns.now) bits.now }
    ensures { IfOk result (λ frame. AllZip (NamesSpot columns.now) bits.now frame.spots) }
{
    let mut spots = Spots::new(alloc);
    for bit in bits {
        spots.push(named_spot(alloc, columns, bit)?)?;
    }
    Ok(Frame { spots })
}

/// What tells two classes apart.
fn named_separation(
    alloc: Global,
    names: &Names,
    x: &ToldSeparation,
) -> Result<Separation, NoMemory>
    requires { IsSeparationIn names.now x.now }
    ensures { IfOk result (NamesSeparation names.now.left names.now.right names.now.columns x.now) }
{
    let low_latch = named_other(names, x.low_latch)?;
    let high_latch = named_latch(names, x.high_latch)?;
    let frame = named_frame(alloc, &names.columns, x.frame.as_slice())?;
    Ok(Separation {
        low: x.low,
        high: x.high,
        low_latch,
        high_latch,
        left: x.left,
        right: x.right,
        frame,
    })
}

/// What tells classes apart, in order.
fn named_separations(
    alloc: Global,
    names: &Names,
    told: &[ToldSeparation],
) -> Result<Separations, NoMemory>
    requires { All (IsSeparationIn names.now) told.now }
    ensures { IfOk result (AllZip (NamesSeparation names.now.left names.now.right names.now.columns) told.now) }
{
    let mut apart = Separations::new(alloc);
    for x in told {
        apart.push(named_separation(alloc, names, x)?)?;
    }
    Ok(apart)
}

/// A pair that reaches another class than 0.
fn named_unshown(alloc: Global, names: &Names, x: UnshownPair) -> Result<Unshown, NoMemory>
    requires { IsUnshownIn names.now x }
    ensures { IfOk result (NamesUnshown names.now.left names.now.right names.now.columns x) }
{
    let UnshownPair { frame, apart } = x;
    let UnshownFrame {
        pair,
        left,
        right,
        frame,
    } = frame;
    let frame = named_frame(alloc, &names.columns, frame.as_slice())?;
    let apart = named_separations(alloc, names, apart.as_slice())?;
    Ok(Unshown {
        pair,
        left,
        right,
        frame,
        apart,
    })
}

/// The verdict, as an outcome has it.
pub fn named_verdict(
    alloc: Global,
    names: &Names,
    verdict: EventVerdict,
) -> Result<Verdict, NoMemory>
    requires { CanBeNamed names.now verdict }
    ensures { IfOk result (NamesVerdict names.now.left names.now.right names.now.columns verdict) }
{
    match verdict {
        EventVerdict::Equal => Ok(Verdict::Equal),
        EventVerdict::Different(witness) => Ok(Verdict::Different(witness)),
        EventVerdict::Limit(name) => Ok(Verdict::Limit(LimitAt::Pair(name))),
        EventVerdict::Cut(witness) => Ok(Verdict::NotShown(Why::Cut(witness))),
        EventVerdict::Events(pair) => {
            let unshown = named_unshown(alloc, names, pair)?;
            Ok(Verdict::NotShown(Why::Events(unshown)))
        }
    }
}
