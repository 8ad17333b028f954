//! What a cycle shows of the pairs: the differences in it, and which of them are settled in both circuits.

ghost use Rattle.std.specs.Prelude.{◌≡◌, ◌+◌, ◌<◌, ◌&&◌, [], ◌∷◌, ◌++◌, length, map, slice_get, if◌then◌else◌, IfOk, OnOk};
ghost use Rattle.cycle_sim.specs.pair_runs.Listing.{differ, is_settled, is_difference, first_with};
ghost use Rattle.cycle_sim.specs.pair_runs.Showing.{as_pair, IsShown, ArePlacesOf, PutsShown};

use crate::MarkedSim;
use crate::pair_runs::differences::{Difference, Differences, OutputPair};
use sec_base::NoMemory;
use witness_report::PairName;

/// The values of a pair in a cycle, and whether they are settled.
#[derive(Clone, Copy)]
pub struct Shown {
    pub left: bool,
    pub right: bool,
    pub left_mark: bool,
    pub right_mark: bool,
}

/// What the latest cycle shows of a pair.
fn read_pair(left: &MarkedSim<'_>, right: &MarkedSim<'_>, pair: &OutputPair) -> Shown
    requires left_place { pair.now.left < length left.now.sim.net.outputs }
    requires right_place { pair.now.right < length right.now.sim.net.outputs }
    requires left_begun { 0 < left.now.sim.cycles }
    requires right_begun { 0 < right.now.sim.cycles }
    ensures { IsShown left.now right.now pair.now result }
{
    Shown {
        left: left.output(pair.left),
        right: right.output(pair.right),
        left_mark: left.mark(pair.left),
        right_mark: right.mark(pair.right),
    }
}

/// Whether the pair is settled in both circuits.
fn is_settled(shown: Shown) -> bool
    ensures { result ≡ is_settled shown }
{
    shown.left_mark && shown.right_mark
}

/// Whether the pair is settled in both circuits and differs.
fn is_difference(shown: Shown) -> bool
    ensures { result ≡ is_difference shown }
{
    is_settled(shown) && shown.left != shown.right
}

/// The first cycle in which the pair is settled in both circuits, by the first of the cycles before this one, where there is one, and
/// by what this one shows.
fn first_with(first: Option<u32>, cycle: u32, shown: Shown) -> Option<u32>
    ensures { result ≡ first_with first cycle shown }
{
    match first {
        Some(before) => Some(before),
        None => { if is_settled(shown) { Some(cycle) } else { None } }
    }
}

pub(crate) fn copy_name(name: &PairName) -> Result<PairName, NoMemory>
    ensures { IfOk result (λ made. made ≡ name.now) }
{
    match name {
        PairName::Output(word) => Ok(PairName::Output(word.copy()?)),
        PairName::Next(word) => Ok(PairName::Next(word.copy()?)),
    }
}

/// Puts the pair behind the differences of the cycle, if it is one.
fn put_pair(
    cycle: u32,
    name: &PairName,
    shown: Shown,
    found: &mut Differences,
) -> Result<(), NoMemory>
    ensures { OnOk result (found.new ≡ found.old ++ as_pair cycle name.now shown) }
{
    if !is_difference(shown) {
        return Ok(());
    }
    found.push(Difference {
        cycle,
        pair: copy_name(name)?,
        left: shown.left,
        right: shown.right,
    })
}

/// Puts the differences of the latest cycle, which has this number, behind those found, and notes of each pair whether it is settled in
/// both circuits, where it wasn't before.
pub(crate) fn put_shown(
    left: &MarkedSim<'_>,
    right: &MarkedSim<'_>,
    pairs: &[OutputPair],
    cycle: u32,
    found: &mut Differences,
    firsts: &mut [Option<u32>],
) -> Result<(), NoMemory>
    requires places { ArePlacesOf left.now.sim.net right.now.sim.net pairs.now }
    requires left_begun { 0 < left.now.sim.cycles }
    requires right_begun { 0 < right.now.sim.cycles }
    requires firsts { length firsts.old ≡ length pairs.now }
    ensures { OnOk result (PutsShown left.now right.now pairs.now cycle found.old found.new firsts.old firsts.new) }
{
    for (j, pair) in pairs.iter().enumerate() {
        let shown = read_pair(left, right, pair);
        put_pair(cycle, &pair.name, shown, found)?;
        firsts[j] = first_with(firsts[j], cycle, shown);
    }
    Ok(())
}
