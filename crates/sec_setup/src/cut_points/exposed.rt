//! The latches that are exposed, or a cycle that no exposed latches break.

ghost use Rattle.std.specs.Prelude.{◌≡◌, ◌<◌, length, All, IfOk};
ghost use Rattle.latch_graph.specs.flat_net.Cut.{exposed_names};
ghost use Rattle.circuit_theory.specs.declared.Mode.{Mode};
ghost use Rattle.latch_graph.specs.Graph.{IsGraphOf, IsGraphIn};
ghost use Rattle.latch_graph.specs.minimal_cut.Chosen.{at_places};
ghost use Rattle.sec_setup.specs.cut_points.expose_pick.Pairs.{lefts, rights};
ghost use Rattle.sec_setup.specs.cut_points.Exposed.{Exposes, TellsCycle};

use crate::cut_points::common_latches::common_pairs;
use crate::cut_points::expose_pick::{LatchPair, PickError, chosen_is_minimal_cut, pick};
use latch_graph::{Ids, LatchGraph, Net, NoMemory, Side, Words};
use std::alloc::Global;

/// The latches that are exposed, in A's order: their names, and their positions in both circuits.
#[derive(Drop)]
pub struct Exposure {
    pub names: Words,
    pub left: Ids,
    pub right: Ids,
}

/// Why no latches are exposed.
#[derive(Drop)]
pub enum ExposeError {
    /// A cycle of this circuit's latches that no common latch breaks, by their names: each is read by the next, the last by
    /// the first, beginning with the least in byte order; A first.
    Unpaired(Side, Words),
    /// Memory was wanted and couldn't be had.
    NoMemory,
}

impl From<NoMemory> for ExposeError {
    ghost use Rattle.std.specs.Prelude.{◌≡◌};
    ghost use Rattle.sec_setup.specs.declared.cut_points.exposed.ExposeError.TheVariants.{NoMemory};

    ghost from_gives = { λ _ e. e ≡ NoMemory };

    fn from(_error: NoMemory) -> ExposeError {
        ExposeError::NoMemory
    }
}

/// The latches that are exposed: a minimal cut among the latches that both circuits have under one name. `Unpaired` comes
/// exactly where a cycle is left without all of those, A's before B's. The cycles are those of each mode whose enabled latches'
/// self-edges are exactly those that both graphs leave out.
pub fn expose(
    alloc: Global,
    a: &Net,
    b: &Net,
    left: &LatchGraph,
    right: &LatchGraph,
) -> Result<Exposure, ExposeError>
    requires left_graph { IsGraphOf a.now left.now }
    requires right_graph { IsGraphOf b.now right.now }
    ensures { (mode : Mode) → IsGraphIn mode a.now left.now → IsGraphIn mode b.now right.now → Exposes mode a.now b.now result }
{
    chosen_is_minimal_cut();
    let common = common_pairs(alloc, a, b)?;
    match pick(alloc, left, right, &common) {
        Ok(places) => Ok(exposure_at(alloc, a, common.as_slice(), places.as_slice())?),
        Err(
            PickError::Unpaired {
                side: Side::A,
                cycle,
            },
        ) => Err(unpaired(alloc, a, Side::A, cycle.as_slice())),
        Err(
            PickError::Unpaired {
                side: Side::B,
                cycle,
            },
        ) => Err(unpaired(alloc, b, Side::B, cycle.as_slice())),
        Err(PickError::NoMemory) => Err(ExposeError::NoMemory),
    }
}

/// The refusal of a cycle of this circuit's latches, by the positions of those.
fn unpaired(alloc: Global, net: &Net, side: Side, cycle: &[u32]) -> ExposeError
    requires { All (λ j. j < length net.now.latches) cycle.now }
    ensures { TellsCycle net.now side cycle.now result }
{
    match names_at(alloc, net, cycle) {
        Ok(names) => ExposeError::Unpaired(side, names),
        Err(_) => ExposeError::NoMemory,
    }
}

/// The names of the latches at these positions.
pub(crate) fn names_at(alloc: Global, net: &Net, positions: &[u32]) -> Result<Words, NoMemory>
    requires { All (λ j. j < length net.now.latches) positions.now }
    ensures { IfOk result (λ names. names ≡ exposed_names net.now positions.now) }
{
    let latches = net.latches();
    let mut names = Words::new(alloc);
    for position in positions {
        names.push(latches[*position as usize].name.copy()?)?;
    }
    Ok(names)
}

/// The latches of the pairs at these places.
fn exposure_at(
    alloc: Global,
    a: &Net,
    common: &[LatchPair],
    places: &[u32],
) -> Result<Exposure, NoMemory>
    requires common { All (λ p. p.left < length a.now.latches) common.now }
    requires places { All (λ k. k < length common.now) places.now }
    ensures left { IfOk result (λ e. e.left ≡ at_places (lefts common.now) places.now) }
    ensures right { IfOk result (λ e. e.right ≡ at_places (rights common.now) places.now) }
    ensures names { IfOk result (λ e. e.names ≡ exposed_names a.now (at_places (lefts common.now) places.now)) }
{
    let mut left = Ids::new(alloc);
    let mut right = Ids::new(alloc);
    for place in places {
        let pair = common[*place as usize];
        left.push(pair.left)?;
        right.push(pair.right)?;
    }
    let names = names_at(alloc, a, left.as_slice())?;
    Ok(Exposure { names, left, right })
}
