//! The functions of the pairs whose signals have two literals.

ghost use Rattle.std.specs.Prelude.{◌≡◌, ℕ, ◌+◌, ◌^◌, ◌<◌, ◌≤◌, ◌++◌, map, length, All, Contains, IfOk, IfErr, OnOk};
ghost use Rattle.std.specs.List.{AllZip};
ghost use Rattle.cbf_unfold.specs.Building.{IsLater};
ghost use Rattle.cbf_unfold.specs.Unfolded.{IsLiteralOf, Fits};
ghost use Rattle.cbf_unfold.specs.unfold_places.InputOrder.{IsOrderOf};
ghost use Rattle.plain_asked.specs.Apart.{AreChosen, ChoosesOf, IsNew, IsPut, UnfoldsApart};
ghost use Rattle.plain_asked.specs.Pairs.{IsFunctionOf, IsRefusalOf, left_signals, right_signals};

use crate::error::PlainError;
use crate::functions::{Functions, side_signals};
use aig::{Aig, Lit};
use base_tables::PlaceTable;
use cbf_unfold::{UnfoldError, Unfolded, Unfolder};
use flat_net::{Net, Signal};
use latch_graph::LatchGraph;
use sec_base::{NoMemory, Orders, Side};
use sec_setup::SignalPair;
use std::alloc::Global;

/// The functions of the pairs whose two signals have different literals.
#[derive(Drop)]
pub struct PairFunctions {
    /// Both functions of each such pair.
    pub functions: Functions,
    /// For each of all pairs, in order, the place of its functions. It is None where both signals have one literal, and so are one function.
    pub at: Vec<Option<usize>>,
}

/// The signals of the pairs whose literals differ, and where they stand.
pub(crate) struct Chosen {
    pub(crate) left: Vec<Signal>,
    pub(crate) right: Vec<Signal>,
    pub(crate) at: Vec<Option<usize>>,
}

/// It is let go by one call: an owner isn't taken apart field by field at each way out.
impl Drop for Chosen {
    fn drop(self) {
        let Chosen {
            left: _,
            right: _,
            at: _,
        } = self;
    }
}

impl Chosen {
    /// Where they stand.
    fn into_at(self) -> Vec<Option<usize>>
        ensures { result.items ≡ self.at.items }
    {
        let Chosen {
            left: _,
            right: _,
            at,
        } = self;
        at
    }
}

/// The functions of the pairs whose signals have different literals: no variables are listed where they have one. All literals of A are
/// made, then all of B. `TooLarge` comes exactly where the unfoldings of one circuit's signals weigh more than 2,000,000 together.
pub fn unfold_apart(
    alloc: Global,
    a: &Net,
    b: &Net,
    left_graph: &LatchGraph,
    right_graph: &LatchGraph,
    orders: &Orders,
    pairs: &[SignalPair],
) -> Result<PairFunctions, PlainError>
    requires left_order { IsOrderOf a.now orders.now.left }
    requires right_order { IsOrderOf b.now orders.now.right }
    requires left { All (λ s. s < length a.now.drivers) (left_signals pairs.now) }
    requires right { All (λ s. s < length b.now.drivers) (right_signals pairs.now) }
    ensures { UnfoldsApart a.now b.now orders.now.left orders.now.right pairs.now result }
{
    let mut a_side = Unfolder::new(alloc, a, left_graph, &orders.left)?;
    let mut b_side = Unfolder::new(alloc, b, right_graph, &orders.right)?;
    unfold_by(alloc, &mut a_side, &mut b_side, pairs)
}

/// The same by two unfolders that have unfolded nothing.
fn unfold_by(
    alloc: Global,
    a_side: &mut Unfolder<'_>,
    b_side: &mut Unfolder<'_>,
    pairs: &[SignalPair],
) -> Result<PairFunctions, PlainError>
    requires left { All (λ s. s < length a_side.old.net.drivers) (left_signals pairs.now) }
    requires right { All (λ s. s < length b_side.old.net.drivers) (right_signals pairs.now) }
    requires left_new { IsNew a_side.old }
    requires right_new { IsNew b_side.old }
    ensures { UnfoldsApart a_side.old.net b_side.old.net a_side.old.order b_side.old.order pairs.now result }
{
    let mut aig = Aig::new(alloc)?;
    let mut places = PlaceTable::new(alloc);
    let chosen = choose_pairs(alloc, a_side, b_side, &mut aig, &mut places, pairs)?;
    let own_a = chosen.left.as_slice();
    let own_b = chosen.right.as_slice();
    let left = functions_of(alloc, Side::A, a_side, &mut aig, &mut places, own_a)?;
    let right = functions_of(alloc, Side::B, b_side, &mut aig, &mut places, own_b)?;
    Ok(PairFunctions {
        functions: Functions {
            aig,
            places,
            left,
            right,
        },
        at: chosen.into_at(),
    })
}

/// The signals of the pairs whose literals differ: all literals of A are made, then all of B.
fn choose_pairs(
    alloc: Global,
    a_side: &mut Unfolder<'_>,
    b_side: &mut Unfolder<'_>,
    aig: &mut Aig,
    places: &mut PlaceTable,
    pairs: &[SignalPair],
) -> Result<Chosen, PlainError>
    requires left { All (λ s. s < length a_side.old.net.drivers) (left_signals pairs.now) }
    requires right { All (λ s. s < length b_side.old.net.drivers) (right_signals pairs.now) }
    requires left_new { IsNew a_side.old }
    requires right_new { IsNew b_side.old }
    requires nodes { length aig.old ≤ 2 ^ 28 }
    requires entries { length places.old ≤ 2 ^ 28 }
    ensures { ChoosesOf a_side.old b_side.old a_side.new b_side.new aig.old aig.new places.old places.new pairs.now result }
{
    let lefts = side_signals(alloc, Side::A, pairs)?;
    let of_a = lefts.as_slice();
    let xs = literals_of(alloc, Side::A, a_side, aig, places, of_a)?;
    let rights = side_signals(alloc, Side::B, pairs)?;
    let of_b = rights.as_slice();
    let ys = literals_of(alloc, Side::B, b_side, aig, places, of_b)?;
    let chosen = choose(alloc, of_a, of_b, xs.as_slice(), ys.as_slice())?;
    Ok(chosen)
}

/// The literals of signals of the circuit of this side.
fn literals_of(
    alloc: Global,
    side: Side,
    unfolder: &mut Unfolder<'_>,
    aig: &mut Aig,
    places: &mut PlaceTable,
    signals: &[Signal],
) -> Result<Vec<Lit>, PlainError>
    requires signals { All (λ s. s.0 < length unfolder.old.net.drivers) signals.now }
    requires fits { Fits unfolder.old aig.old places.old }
    requires nodes { length aig.old ≤ 2 ^ 29 }
    requires entries { length places.old ≤ 2 ^ 29 }
    ensures literals { IfOk result (λ lits. AllZip (λ s x. IsLiteralOf unfolder.new.net unfolder.new.order aig.new places.new s.0 x.0) signals.now lits.items) }
    ensures fits { OnOk result (Fits unfolder.new aig.new places.new) }
    ensures done { OnOk result (unfolder.new.done ≡ unfolder.old.done ++ map (λ s. s.0) signals.now) }
    ensures refused { IfErr result (IsRefusalOf side unfolder.old.net (unfolder.old.done ++ map (λ s. s.0) signals.now)) }
    ensures later { IsLater unfolder.old unfolder.new aig.old aig.new places.old places.new }
{
    match unfolder.unfold_literals(alloc, aig, places, signals) {
        Ok(lits) => Ok(lits),
        Err(UnfoldError::TooLarge) => Err(PlainError::TooLarge(side)),
        Err(UnfoldError::NoMemory) => Err(PlainError::NoMemory),
    }
}

/// The functions of signals of the circuit of this side.
pub(crate) fn functions_of(
    alloc: Global,
    side: Side,
    unfolder: &mut Unfolder<'_>,
    aig: &mut Aig,
    places: &mut PlaceTable,
    signals: &[Signal],
) -> Result<Vec<Unfolded>, PlainError>
    requires signals { All (λ s. s.0 < length unfolder.old.net.drivers) signals.now }
    requires fits { Fits unfolder.old aig.old places.old }
    requires nodes { length aig.old ≤ 2 ^ 29 }
    requires entries { length places.old ≤ 2 ^ 29 }
    ensures unfolded { IfOk result (λ us. AllZip (λ s u. IsFunctionOf unfolder.new.net unfolder.new.order aig.new places.new s.0 u) signals.now us.items) }
    ensures fits { OnOk result (Fits unfolder.new aig.new places.new) }
    ensures done { OnOk result (unfolder.new.done ≡ unfolder.old.done ++ map (λ s. s.0) signals.now) }
    ensures refused { IfErr result (IsRefusalOf side unfolder.old.net (unfolder.old.done ++ map (λ s. s.0) signals.now)) }
    ensures later { IsLater unfolder.old unfolder.new aig.old aig.new places.old places.new }
{
    match unfolder.unfold_all(alloc, aig, places, signals) {
        Ok(unfolded) => Ok(unfolded),
        Err(UnfoldError::TooLarge) => Err(PlainError::TooLarge(side)),
        Err(UnfoldError::NoMemory) => Err(PlainError::NoMemory),
    }
}

/// Those of the signals whose literals differ.
fn choose(
    alloc: Global,
    lefts: &[Signal],
    rights: &[Signal],
    xs: &[Lit],
    ys: &[Lit],
) -> Result<Chosen, NoMemory>
    requires rights { length rights.now ≡ length lefts.now }
    requires xs { length xs.now ≡ length lefts.now }
    requires ys { length ys.now ≡ length lefts.now }
    ensures { IfOk result (AreChosen lefts.now rights.now xs.now ys.now (length lefts.now)) }
{
    let mut chosen = Chosen {
        left: Vec::new(alloc),
        right: Vec::new(alloc),
        at: Vec::new(alloc),
    };
    for i in 0..lefts.len() {
        put(&mut chosen, lefts[i], rights[i], xs[i], ys[i])?;
    }
    Ok(chosen)
}

/// Puts two signals of these literals behind the others where the literals differ.
fn put(chosen: &mut Chosen, left: Signal, right: Signal, x: Lit, y: Lit) -> Result<(), NoMemory>
    requires { length chosen.old.left.items ≡ length chosen.old.right.items }
    ensures { OnOk result (IsPut left right x y chosen.old chosen.new) }
{
    if x == y {
        chosen.at.push(None)?;
        return Ok(());
    }
    chosen.at.push(Some(chosen.left.len()))?;
    chosen.left.push(left)?;
    chosen.right.push(right)?;
    Ok(())
}
