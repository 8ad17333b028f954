//! The functions of all pairs.

ghost use Rattle.std.specs.Prelude.{◌≡◌, ℕ, ◌+◌, ◌*◌, ◌^◌, ◌<◌, ◌≤◌, map, length, All, IfOk, IfErr, OnOk};
ghost use Rattle.std.specs.List.{AllZip};
ghost use Rattle.aig.specs.Graph.{Grows};
ghost use Rattle.cbf_unfold.specs.unfold_places.Reach.{Adds};
ghost use Rattle.cbf_unfold.specs.unfold_places.InputOrder.{IsOrderOf};
ghost use Rattle.plain_asked.specs.Pairs.{IsFunctionOf, AreLight, IsRefusalOf, Unfolds, left_signals, right_signals, side_signals, signal_of};

use crate::apart::functions_of;
use crate::error::PlainError;
use aig::Aig;
use base_tables::PlaceTable;
use cbf_unfold::{Unfolded, Unfolder};
use flat_net::{Net, Signal};
use latch_graph::LatchGraph;
use sec_base::{Ids, MAX_WEIGHT, NoMemory, Orders, Side};
use sec_setup::SignalPair;
use std::alloc::Global;

/// The functions of each pair's two signals, on one graph and one table of inputs at shifts.
pub struct Functions {
    pub aig: Aig,
    pub places: PlaceTable,
    pub left: Vec<Unfolded>,
    pub right: Vec<Unfolded>,
}

/// It is let go by one call: an owner isn't taken apart field by field at each way out.
impl Drop for Functions {
    fn drop(self) {
        let Functions {
            aig: _,
            places: _,
            left: _,
            right: _,
        } = self;
    }
}

/// The functions of each pair of signals: all of A's are unfolded, then all of B's. `TooLarge` comes exactly where the unfoldings of
/// one circuit's signals weigh more than 2,000,000 together.
pub fn unfold_pairs(
    alloc: Global,
    a: &Net,
    b: &Net,
    left: &LatchGraph,
    right: &LatchGraph,
    orders: &Orders,
    pairs: &[SignalPair],
) -> Result<Functions, PlainError>
    requires left_order { IsOrderOf a.now orders.now.left }
    requires right_order { IsOrderOf b.now orders.now.right }
    requires left { All (λ s. s < length a.now.drivers) (left_signals pairs.now) }
    requires right { All (λ s. s < length b.now.drivers) (right_signals pairs.now) }
    ensures unfolds { Unfolds a.now b.now orders.now.left orders.now.right pairs.now result }
    ensures small { IfOk result (λ f. length f.aig ≤ 2 * MAX_WEIGHT + 1) }
    ensures few { IfOk result (λ f. length f.places ≤ 2 * MAX_WEIGHT) }
{
    let mut aig = Aig::new(alloc)?;
    let mut places = PlaceTable::new(alloc);
    let left = unfold_side(
        alloc,
        Side::A,
        a,
        left,
        &orders.left,
        &mut aig,
        &mut places,
        pairs,
    )?;
    let right = unfold_side(
        alloc,
        Side::B,
        b,
        right,
        &orders.right,
        &mut aig,
        &mut places,
        pairs,
    )?;
    Ok(Functions {
        aig,
        places,
        left,
        right,
    })
}

/// The signals of the pairs in the circuit of this side.
pub(crate) fn side_signals(
    alloc: Global,
    side: Side,
    pairs: &[SignalPair],
) -> Result<Vec<Signal>, NoMemory>
    ensures { IfOk result (λ signals. signals.items ≡ map (λ p. signal_of side p) pairs.now) }
{
    let mut signals = Vec::new(alloc);
    for pair in pairs {
        signals.push(signal_of(side, pair))?;
    }
    Ok(signals)
}

/// The signal of a pair in the circuit of this side.
fn signal_of(side: Side, pair: &SignalPair) -> Signal
    ensures { result ≡ signal_of side pair.now }
{
    match side {
        Side::A => pair.left,
        Side::B => pair.right,
    }
}

/// Unfolds the signals of the pairs in one circuit, in their order, by one unfolder.
fn unfold_side(
    alloc: Global,
    side: Side,
    net: &Net,
    graph: &LatchGraph,
    order: &Ids,
    aig: &mut Aig,
    places: &mut PlaceTable,
    pairs: &[SignalPair],
) -> Result<Vec<Unfolded>, PlainError>
    requires order { IsOrderOf net.now order.now }
    requires signals { All (λ s. s < length net.now.drivers) (side_signals side pairs.now) }
    requires nodes { length aig.old ≤ 2 ^ 28 }
    requires entries { length places.old ≤ 2 ^ 28 }
    ensures unfolded { IfOk result (λ us. AllZip (λ p u. IsFunctionOf net.now order.now aig.new places.new (signal_of side p).0 u) pairs.now us.items) }
    ensures light { OnOk result (AreLight net.now (side_signals side pairs.now)) }
    ensures refused { IfErr result (IsRefusalOf side net.now (side_signals side pairs.now)) }
    ensures grows { Grows aig.old aig.new }
    ensures adds { Adds (λ p. Unit {0}) places.old places.new }
    ensures nodes { length aig.new ≤ length aig.old + MAX_WEIGHT }
    ensures entries { length places.new ≤ length places.old + MAX_WEIGHT }
{
    let signals = side_signals(alloc, side, pairs)?;
    let given = signals.as_slice();
    let mut unfolder = Unfolder::new(alloc, net, graph, order)?;
    functions_of(alloc, side, &mut unfolder, aig, places, given)
}
