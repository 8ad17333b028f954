//! The functions of all pairs in all cycles up to their depths.

ghost use Rattle.std.specs.Prelude.{◌≡◌, ℕ, ◌+◌, ◌*◌, ◌^◌, ◌<◌, ◌≤◌, [], length, All, Contains, IfOk, IfErr, OnOk};
ghost use Rattle.std.specs.List.{AllZip};
ghost use Rattle.aig.specs.Graph.{Grows};
ghost use Rattle.cbf_unfold.specs.unfold_places.Reach.{Adds};
ghost use Rattle.cbf_unfold.specs.declared.unfold_places.error.UnfoldError.TheVariants as unfold_error;
ghost use Rattle.reset_form.specs.reset_unfold.Unfolded.{FitsReset};
ghost use Rattle.reset_form.specs.reset_unfold.Building.{IsLaterReset};
ghost use Rattle.reset_form.specs.reset_unfold.Places.{starts_of};
ghost use Rattle.circuit_laws.specs.reset_laws.Weight.{IsResetOver};
ghost use Rattle.flat_net.specs.View.{circuit_of};
ghost use Rattle.sec_setup.specs.Setup.{IsSetup};
ghost use Rattle.reset_form.specs.reset_functions.Bases.{AreBases, IsPart};
ghost use Rattle.reset_form.specs.reset_functions.Pairs.{AreCyclesOf, AreTops, IsAmong, IsBelow, IsRefusalOf, Unfolds, HasDoneBelow, IsOverBelow, IsLight, IsTooLarge, CyclesOf};

use crate::reset_functions::bases::Bases;
use crate::reset_functions::error::ResetError;
use crate::reset_unfold::ResetUnfolder;
use aig::Aig;
use base_tables::PlaceTable;
use cbf_unfold::unfold_places::memo::Place;
use cbf_unfold::unfold_places::{UnfoldError, Unfolded};
use flat_net::{Net, Signal};
use sec_base::{Ids, MAX_WEIGHT, NoMemory, Seq, Side};
use sec_setup::{LatchGraph, Setup, pair_depth};
use std::alloc::Global;

/// The functions of a signal in the cycles from 0 on.
pub type Cycles = Seq<Unfolded>;

/// The functions of each pair's two signals in each cycle up to the pair's depth, on one graph and one table of inputs in cycles and
/// of latches in cycle 0.
pub struct Functions {
    pub aig: Aig,
    pub places: PlaceTable,
    pub left: Vec<Cycles>,
    pub right: Vec<Cycles>,
}

/// It is let go by one call: an owner isn't taken apart field by field at each way out.
impl Drop for Functions {
    fn drop(self) {
        let Functions {
            aig: _,
            places: _,
            left: _,
            right: _,
        } = self;
    }
}

/// One of the two circuits, with the numbers of its variables.
#[derive(Drop)]
pub struct Part<'a> {
    pub side: Side,
    pub net: &'a Net,
    pub graph: &'a LatchGraph,
    pub order: &'a Ids,
    pub base: u32,
}

/// The signals of each pair, with the pair's depth before them.
#[derive(Drop)]
struct Tops {
    left: Vec<Place>,
    right: Vec<Place>,
}

/// Unfolds all of A, then all of B, pair by pair in each cycle from 0 to the pair's depth.
pub fn unfold_pairs(alloc: Global, setup: &Setup<'_>, bases: Bases) -> Result<Functions, ResetError>
    requires setup { IsSetup setup.now }
    requires bases { AreBases setup.now bases }
    ensures unfolds { Unfolds setup.now bases result }
    ensures small { IfOk result (λ f. length f.aig ≤ 2 * MAX_WEIGHT + 1) }
    ensures few { IfOk result (λ f. length f.places ≤ 2 * MAX_WEIGHT) }
{
    setup.left.keeps();
    setup.right.keeps();
    let tops = tops_of(alloc, setup)?;
    let mut aig = Aig::new(alloc)?;
    let mut places = PlaceTable::new(alloc);
    let part = Part {
        side: Side::A,
        net: setup.left,
        graph: setup.left_graph,
        order: &setup.orders.left,
        base: bases.left,
    };
    let left = unfold_part(alloc, &part, &mut aig, &mut places, tops.left.as_slice())?;
    let part = Part {
        side: Side::B,
        net: setup.right,
        graph: setup.right_graph,
        order: &setup.orders.right,
        base: bases.right,
    };
    let right = unfold_part(alloc, &part, &mut aig, &mut places, tops.right.as_slice())?;
    Ok(Functions {
        aig,
        places,
        left,
        right,
    })
}

/// The signals of each pair, with the pair's depth.
fn tops_of(alloc: Global, setup: &Setup<'_>) -> Result<Tops, NoMemory>
    requires { IsSetup setup.now }
    ensures { IfOk result (AreTops setup.now setup.now.pairs) }
{
    setup.left.keeps();
    setup.right.keeps();
    let mut tops = Tops {
        left: Vec::new(alloc),
        right: Vec::new(alloc),
    };
    for pair in setup.pairs.as_slice() {
        let depth = pair_depth(setup, pair.left, pair.right);
        tops.left.push((depth, pair.left.0))?;
        tops.right.push((depth, pair.right.0))?;
    }
    Ok(tops)
}

/// Unfolds the signals of one circuit in each cycle up to their tops.
fn unfold_part(
    alloc: Global,
    part: &Part<'_>,
    aig: &mut Aig,
    places: &mut PlaceTable,
    tops: &[Place],
) -> Result<Vec<Cycles>, ResetError>
    requires part { IsPart part.now }
    requires signals { All (λ p. p.1 < length part.now.net.now.drivers) tops.now }
    requires nodes { length aig.old ≤ 2 ^ 28 }
    requires entries { length places.old ≤ 2 ^ 28 }
    ensures unfolded { IfOk result (λ all. AllZip (CyclesOf part.now aig.new places.new) tops.now all.items) }
    ensures light { OnOk result (IsLight part.now.net.now (IsAmong tops.now)) }
    ensures refused { IfErr result (IsRefusalOf part.now.side part.now.net.now (IsAmong tops.now)) }
    ensures grows { Grows aig.old aig.new }
    ensures adds { Adds (λ p. Unit {0}) places.old places.new }
    ensures nodes { length aig.new ≤ length aig.old + MAX_WEIGHT }
    ensures entries { length places.new ≤ length places.old + MAX_WEIGHT }
{
    match unfold_tops(alloc, part, aig, places, tops) {
        Ok(unfolded) => Ok(unfolded),
        Err(UnfoldError::TooLarge) => Err(ResetError::TooLarge(part.side)),
        Err(UnfoldError::NoMemory) => Err(ResetError::NoMemory),
    }
}

/// The same by one unfolder.
fn unfold_tops(
    alloc: Global,
    part: &Part<'_>,
    aig: &mut Aig,
    places: &mut PlaceTable,
    tops: &[Place],
) -> Result<Vec<Cycles>, UnfoldError>
    requires part { IsPart part.now }
    requires signals { All (λ p. p.1 < length part.now.net.now.drivers) tops.now }
    requires nodes { length aig.old ≤ 2 ^ 28 }
    requires entries { length places.old ≤ 2 ^ 28 }
    ensures unfolded { IfOk result (λ all. AllZip (CyclesOf part.now aig.new places.new) tops.now all.items) }
    ensures light { OnOk result (IsLight part.now.net.now (IsAmong tops.now)) }
    ensures over { result ≡ Err unfold_error.TooLarge → IsTooLarge part.now.net.now (IsAmong tops.now) }
    ensures grows { Grows aig.old aig.new }
    ensures adds { Adds (λ p. Unit {0}) places.old places.new }
    ensures nodes { length aig.new ≤ length aig.old + MAX_WEIGHT }
    ensures entries { length places.new ≤ length places.old + MAX_WEIGHT }
{
    let mut unfolder = ResetUnfolder::new(alloc, part.net, part.graph, part.order, part.base)?;
    unfold_all(alloc, &mut unfolder, aig, places, tops)
}

/// The same by an unfolder that has unfolded nothing.
fn unfold_all(
    alloc: Global,
    unfolder: &mut ResetUnfolder<'_>,
    aig: &mut Aig,
    places: &mut PlaceTable,
    tops: &[Place],
) -> Result<Vec<Cycles>, UnfoldError>
    requires signals { All (λ p. p.1 < length unfolder.old.net.drivers) tops.now }
    requires none { unfolder.old.done ≡ [] }
    requires fits { FitsReset unfolder.old aig.old places.old }
    requires nodes { length aig.old ≤ 2 ^ 28 }
    requires entries { length places.old ≤ 2 ^ 28 }
    ensures unfolded { IfOk result (λ all. AllZip (AreCyclesOf unfolder.old.net unfolder.old.order unfolder.old.base aig.new places.new) tops.now all.items) }
    ensures light { OnOk result (IsLight unfolder.old.net (IsAmong tops.now)) }
    ensures over { result ≡ Err unfold_error.TooLarge → IsTooLarge unfolder.old.net (IsAmong tops.now) }
    ensures grows { Grows aig.old aig.new }
    ensures adds { Adds (λ p. Unit {0}) places.old places.new }
    ensures nodes { length aig.new ≤ length aig.old + MAX_WEIGHT }
    ensures entries { length places.new ≤ length places.old + MAX_WEIGHT }
{
    let mut all = Vec::new(alloc);
    for top in tops {
        let cycles = unfold_cycles(alloc, unfolder, aig, places, *top)?;
        all.push(cycles)?;
    }
    Ok(all)
}

/// Unfolds a signal in each cycle from 0 to its top, from one walk over what it visits in the top.
fn unfold_cycles(
    alloc: Global,
    unfolder: &mut ResetUnfolder<'_>,
    aig: &mut Aig,
    places: &mut PlaceTable,
    top: Place,
) -> Result<Cycles, UnfoldError>
    requires signal { top.1 < length unfolder.old.net.drivers }
    requires fits { FitsReset unfolder.old aig.old places.old }
    requires nodes { length aig.old ≤ 2 ^ 28 + unfolder.old.weight }
    requires entries { length places.old ≤ 2 ^ 28 + unfolder.old.weight }
    ensures unfolded { IfOk result (AreCyclesOf unfolder.old.net unfolder.old.order unfolder.old.base aig.new places.new top) }
    ensures fits { OnOk result (FitsReset unfolder.new aig.new places.new) }
    ensures done { OnOk result (HasDoneBelow top unfolder.old.done unfolder.new.done) }
    ensures over { result ≡ Err unfold_error.TooLarge → IsOverBelow unfolder.old top }
    ensures later { IsLaterReset unfolder.old unfolder.new aig.old aig.new places.old places.new }
{
    let mut cone = unfolder.cone(alloc, Signal(top.1), top.0)?;
    let mut cycles = Cycles::new(alloc);
    for _cycle in 0..u64::from(top.0) + 1 {
        let one = unfolder.unfold_next(alloc, aig, places, &mut cone)?;
        cycles.push(one)?;
    }
    Ok(cycles)
}
