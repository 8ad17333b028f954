//! The choice of the latches that are exposed.

ghost use Rattle.std.specs.Prelude.{◌≡◌, ◌≢◌, ◌<◌, All, length, IfOk, OnOk, IfErr};
ghost use Rattle.std.specs.List.{AllPairs};
ghost use Rattle.base_tables.specs.Table.{AreDistinct};
ghost use Rattle.latch_graph.specs.minimal_cut.Chosen.{IsFree, IsMinimalChoice};
ghost use Rattle.sec_setup.specs.cut_points.expose_pick.Pairs.{lefts, rights};
ghost use Rattle.sec_setup.specs.cut_points.expose_pick.Refused.{Refuses};

use crate::cut_points::expose_pick::error::PickError;
use crate::cut_points::expose_pick::pairs::{LatchPairs, lefts_of, rights_of};
use crate::cut_points::expose_pick::remaining_cycle::cycle_left;
use latch_graph::minimal_cut::chosen;
use latch_graph::{Ids, LatchGraph, Side};
use std::alloc::Global;

/// The places of pairs whose latches are a minimal cut, in increasing order: no cycle is left in either graph without
/// these latches, and without one of them fewer there is a cycle in one of the graphs. `Unpaired` comes exactly where a
/// cycle is left without the latches of all pairs, the first graph's before the second's. No latch stands in two pairs.
pub fn pick(
    alloc: Global,
    a: &LatchGraph,
    b: &LatchGraph,
    common: &LatchPairs,
) -> Result<Ids, PickError>
    requires left { All (λ p. p.left < length a.now.latches) common.now }
    requires right { All (λ p. p.right < length b.now.latches) common.now }
    requires left_once { AllPairs (λ p q. p.left ≢ q.left) common.now }
    requires right_once { AllPairs (λ p q. p.right ≢ q.right) common.now }
    ensures minimal { IfOk result (IsMinimalChoice a.now b.now (lefts common.now) (rights common.now)) }
    ensures left_paired { OnOk result (IsFree a.now (lefts common.now)) }
    ensures right_paired { OnOk result (IsFree b.now (rights common.now)) }
    ensures unpaired { IfErr result (Refuses a.now b.now (lefts common.now) (rights common.now)) }
{
    let left = lefts_of(alloc, common.as_slice())?;
    let right = rights_of(alloc, common.as_slice())?;
    pick_apart(alloc, a, b, left.as_slice(), right.as_slice())
}

/// The same by the positions of the pairs' latches, in either graph.
fn pick_apart(
    alloc: Global,
    a: &LatchGraph,
    b: &LatchGraph,
    lefts: &[u32],
    rights: &[u32],
) -> Result<Ids, PickError>
    requires left { All (λ j. j < length a.now.latches) lefts.now }
    requires right { All (λ j. j < length b.now.latches) rights.now }
    requires left_once { AreDistinct lefts.now }
    requires right_once { AreDistinct rights.now }
    requires pairs { length rights.now ≡ length lefts.now }
    ensures minimal { IfOk result (IsMinimalChoice a.now b.now lefts.now rights.now) }
    ensures left_paired { OnOk result (IsFree a.now lefts.now) }
    ensures right_paired { OnOk result (IsFree b.now rights.now) }
    ensures unpaired { IfErr result (Refuses a.now b.now lefts.now rights.now) }
{
    if let Some(cycle) = cycle_left(alloc, a, lefts)? {
        return Err(PickError::Unpaired {
            side: Side::A,
            cycle,
        });
    }
    if let Some(cycle) = cycle_left(alloc, b, rights)? {
        return Err(PickError::Unpaired {
            side: Side::B,
            cycle,
        });
    }
    let places = chosen(alloc, a.signals(), b.signals(), lefts, rights)?;
    Ok(places)
}
