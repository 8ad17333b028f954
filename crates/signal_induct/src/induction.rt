//! The comparison.

ghost use Rattle.std.specs.Prelude.{◌≡◌, ◌*◌, ◌^◌, ◌<◌, ◌≤◌, None, length, All, IfOk, IfErr, IsTrue};
ghost use Rattle.circuit_theory.specs.Interface.{first_mismatch, AreOrders};
ghost use Rattle.circuit_laws.specs.reset_laws.Reset.{AgreeFromReset};
ghost use Rattle.flat_net.specs.Comparable.{IsComparable};
ghost use Rattle.flat_net.specs.View.{circuit_of, ports_of};
ghost use Rattle.block_refine.specs.latch_blocks.Signals.{net_weight};
ghost use Rattle.induct.specs.Inductions.{IsRefusal};
ghost use Rattle.signal_refine.specs.Assuming.{IsMet};
ghost use Rattle.signal_induct.specs.Tied.{first_apart, AgreeFromResetWhere, IsInductionWhere, IsSignalInduction};

use crate::outputs::{TiedPairs, equal_count, output_pairs, tied_pairs};
use aig::{Aig, Lit};
use block_refine::latch_blocks::is_light;
use flat_net::Net;
use induct::InductError;
use sec_base::{MAX_WEIGHT, NoMemory, Orders, Side};
use signal_refine::{Assumed, Correspondence, SignalNets, are_moved, correspond};
use std::alloc::Global;

/// Ties that are an inductive invariant of two circuits, and what they say of the outputs.
#[derive(Drop)]
pub struct SignalInduction {
    pub ties: Correspondence,
    /// In the order of A's outputs.
    pub pairs: TiedPairs,
}

/// Whether all outputs of one name agree from the initial values on, by ties of signals. A query has at most so many conflicts; at the
/// limit its tie is dropped. `TooLarge` comes where all inputs, latches and gates of a circuit weigh more than 2,000,000 together, each
/// once; A comes first.
pub fn induct_signals(
    alloc: Global,
    a: &Net,
    b: &Net,
    orders: &Orders,
    conflicts: u32,
) -> Result<SignalInduction, InductError>
    requires matches { first_mismatch (ports_of a.now) (ports_of b.now) ≡ None }
    requires right { IsComparable b.now }
    requires orders { AreOrders (ports_of a.now) (ports_of b.now) orders.now.left orders.now.right }
    ensures light { IfOk result (λ _. (net_weight a.now ≤ MAX_WEIGHT) × (net_weight b.now ≤ MAX_WEIGHT)) }
    ensures made { IfOk result (IsSignalInduction a.now b.now) }
    ensures agree { IfOk result (λ made. first_apart made.pairs ≡ None → AgreeFromReset (circuit_of a.now) (circuit_of b.now)) }
    ensures refused { IfErr result (IsRefusal a.now b.now) }
{
    let graph = Aig::new(alloc)?;
    graph.keeps();
    let nothing = nothing_assumed(&graph);
    induct_where(alloc, a, b, orders, &nothing, conflicts)
}

/// What is met always.
fn nothing_assumed(graph: &Aig) -> Assumed<'_>
    ensures graph { result.graph.now ≡ graph.now }
    ensures lit { result.lit.0 ≡ 1 }
{
    Assumed {
        graph,
        lit: Lit::TRUE,
        numbers: &[],
        row: &[],
    }
}

/// The same of the runs in which the assumption is met in every cycle. Inputs have the numbers of `orders`.
pub fn induct_where(
    alloc: Global,
    a: &Net,
    b: &Net,
    orders: &Orders,
    assumed: &Assumed<'_>,
    conflicts: u32,
) -> Result<SignalInduction, InductError>
    requires matches { first_mismatch (ports_of a.now) (ports_of b.now) ≡ None }
    requires right { IsComparable b.now }
    requires orders { AreOrders (ports_of a.now) (ports_of b.now) orders.now.left orders.now.right }
    requires assumed { assumed.now.lit.0 < 2 * length assumed.now.graph.now }
    ensures light { IfOk result (λ _. (net_weight a.now ≤ MAX_WEIGHT) × (net_weight b.now ≤ MAX_WEIGHT)) }
    ensures made { IfOk result (IsInductionWhere (IsMet assumed.now (record { left = a.entry; right = b.entry; orders = orders.entry })) a.now b.now) }
    ensures agree { IfOk result (λ made. first_apart made.pairs ≡ None → AgreeFromResetWhere (IsMet assumed.now (record { left = a.entry; right = b.entry; orders = orders.entry })) (circuit_of a.now) (circuit_of b.now)) }
    ensures refused { IfErr result (IsRefusal a.now b.now) }
{
    if !is_light(a) {
        return Err(InductError::TooLarge(Side::A));
    }
    if !is_light(b) {
        return Err(InductError::TooLarge(Side::B));
    }
    let made = induct_light(alloc, a, b, orders, assumed, conflicts)?;
    Ok(made)
}

/// The same of two light nets. Inputs that are left out have numbers of their own; one of 2^30 or more counts as no memory, and `interface`
/// gives none to light nets.
fn induct_light(
    alloc: Global,
    a: &Net,
    b: &Net,
    orders: &Orders,
    assumed: &Assumed<'_>,
    conflicts: u32,
) -> Result<SignalInduction, NoMemory>
    requires matches { first_mismatch (ports_of a.now) (ports_of b.now) ≡ None }
    requires right { IsComparable b.now }
    requires orders { AreOrders (ports_of a.now) (ports_of b.now) orders.now.left orders.now.right }
    requires assumed { assumed.now.lit.0 < 2 * length assumed.now.graph.now }
    requires light { (net_weight a.now ≤ MAX_WEIGHT) × (net_weight b.now ≤ MAX_WEIGHT) }
    ensures made { IfOk result (IsInductionWhere (IsMet assumed.now (record { left = a.entry; right = b.entry; orders = orders.entry })) a.now b.now) }
    ensures agree { IfOk result (λ made. first_apart made.pairs ≡ None → AgreeFromResetWhere (IsMet assumed.now (record { left = a.entry; right = b.entry; orders = orders.entry })) (circuit_of a.now) (circuit_of b.now)) }
{
    let left = are_small(orders.left.as_slice());
    let right = are_small(orders.right.as_slice());
    if left && right {
        return tie(alloc, a, b, orders, assumed, conflicts);
    }
    Err(NoMemory)
}

/// The same where all inputs' numbers are small. Where these ties don't make all outputs equal, values in the next cycle are tied too, and
/// the ties count that make more of them equal. Where many flip-flops look as if they had been moved, these values are tied first.
fn tie(
    alloc: Global,
    a: &Net,
    b: &Net,
    orders: &Orders,
    assumed: &Assumed<'_>,
    conflicts: u32,
) -> Result<SignalInduction, NoMemory>
    requires matches { first_mismatch (ports_of a.now) (ports_of b.now) ≡ None }
    requires right { IsComparable b.now }
    requires orders { AreOrders (ports_of a.now) (ports_of b.now) orders.now.left orders.now.right }
    requires assumed { assumed.now.lit.0 < 2 * length assumed.now.graph.now }
    requires light { (net_weight a.now ≤ MAX_WEIGHT) × (net_weight b.now ≤ MAX_WEIGHT) }
    requires left_small { All (λ i. i < 2 ^ 30) orders.now.left }
    requires right_small { All (λ i. i < 2 ^ 30) orders.now.right }
    ensures made { IfOk result (IsInductionWhere (IsMet assumed.now (record { left = a.entry; right = b.entry; orders = orders.entry })) a.now b.now) }
    ensures agree { IfOk result (λ made. first_apart made.pairs ≡ None → AgreeFromResetWhere (IsMet assumed.now (record { left = a.entry; right = b.entry; orders = orders.entry })) (circuit_of a.now) (circuit_of b.now)) }
{
    let moved = are_moved_apart(alloc, a, b, orders, assumed)?;
    let made = tie_by(alloc, a, b, orders, assumed, conflicts, moved)?;
    let equal = equal_count(made.pairs.as_slice());
    if equal == made.pairs.as_slice().len() {
        return Ok(made);
    }
    let more = tie_by(alloc, a, b, orders, assumed, conflicts, !moved)?;
    if equal_count(more.pairs.as_slice()) > equal {
        return Ok(more);
    }
    Ok(made)
}

/// Whether many flip-flops look as if they had been moved, as a guess.
fn are_moved_apart(
    alloc: Global,
    a: &Net,
    b: &Net,
    orders: &Orders,
    assumed: &Assumed<'_>,
) -> Result<bool, NoMemory>
    requires orders { AreOrders (ports_of a.now) (ports_of b.now) orders.now.left orders.now.right }
    requires light { (net_weight a.now ≤ MAX_WEIGHT) × (net_weight b.now ≤ MAX_WEIGHT) }
    requires left_small { All (λ i. i < 2 ^ 30) orders.now.left }
    requires right_small { All (λ i. i < 2 ^ 30) orders.now.right }
{
    a.keeps();
    b.keeps();
    let nets = SignalNets {
        left: a,
        right: b,
        orders,
    };
    are_moved(alloc, &nets, assumed)
}

/// The same by ties of signals; if asked, by those of values in the next cycle too.
fn tie_by(
    alloc: Global,
    a: &Net,
    b: &Net,
    orders: &Orders,
    assumed: &Assumed<'_>,
    conflicts: u32,
    ahead: bool,
) -> Result<SignalInduction, NoMemory>
    requires matches { first_mismatch (ports_of a.now) (ports_of b.now) ≡ None }
    requires right { IsComparable b.now }
    requires orders { AreOrders (ports_of a.now) (ports_of b.now) orders.now.left orders.now.right }
    requires assumed { assumed.now.lit.0 < 2 * length assumed.now.graph.now }
    requires light { (net_weight a.now ≤ MAX_WEIGHT) × (net_weight b.now ≤ MAX_WEIGHT) }
    requires left_small { All (λ i. i < 2 ^ 30) orders.now.left }
    requires right_small { All (λ i. i < 2 ^ 30) orders.now.right }
    ensures made { IfOk result (IsInductionWhere (IsMet assumed.now (record { left = a.entry; right = b.entry; orders = orders.entry })) a.now b.now) }
    ensures agree { IfOk result (λ made. first_apart made.pairs ≡ None → AgreeFromResetWhere (IsMet assumed.now (record { left = a.entry; right = b.entry; orders = orders.entry })) (circuit_of a.now) (circuit_of b.now)) }
{
    a.keeps();
    b.keeps();
    let nets = SignalNets {
        left: a,
        right: b,
        orders,
    };
    let ties = correspond(alloc, &nets, assumed, conflicts, ahead)?;
    let outputs = output_pairs(alloc, a, b)?;
    let pairs = tied_pairs(alloc, a.size(), &ties.anchors, outputs)?;
    Ok(SignalInduction { ties, pairs })
}

/// Whether all of these numbers are below 2^30.
fn are_small(numbers: &[u32]) -> bool
    ensures { IsTrue result → All (λ i. i < 2 ^ 30) numbers.now }
{
    let mut small = true;
    for i in numbers {
        small = with_number(small, *i);
    }
    small
}

/// Whether this number is below 2^30 too.
fn with_number(small: bool, number: u32) -> bool
    ensures others { IsTrue result → IsTrue small }
    ensures own { IsTrue result → number < 2 ^ 30 }
{
    small && number < 1 << 30
}
