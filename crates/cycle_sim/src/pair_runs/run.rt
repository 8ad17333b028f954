//! Two nets that run over a stimulus side by side.

ghost use Rattle.std.specs.Prelude.{◌≡◌, ◌^◌, ◌<◌, length, map, replicate, None, IfOk, OnOk};
ghost use Rattle.cycle_sim.specs.pair_runs.Feeds.{CanStep, Steps, IsReady, PutsCycles, AreFound, fed};
ghost use Rattle.cycle_sim.specs.pair_runs.Showing.{names_of, ArePlacesOf, PutsShown};

use crate::pair_runs::differences::{Differences, OutputPair, Replayed, Settling, Settlings};
use crate::pair_runs::feed::Feed;
use crate::pair_runs::shown::{copy_name, put_shown};
use base_tables::NameTable;
use flat_net::Net;
use sec_base::{Bits, NoMemory};
use std::alloc::Global;
use witness_report::Stimulus;

/// A net with one bit for each latch, which is set where the latch counts as enabled.
#[derive(Clone, Copy)]
pub struct Side<'a> {
    pub net: &'a Net,
    pub enabled: &'a Bits,
}

/// The differences of the pairs in the runs of both nets over the stimulus, from zeros on, by cycle and then by pair, and since when each
/// pair is settled in both. An input takes the bits that stand under its name, and 0 where the stimulus doesn't name it. The latches
/// whose bits are set count as enabled. The table is that of the stimulus' names.
pub fn run_pairs(
    alloc: Global,
    a: &Side<'_>,
    b: &Side<'_>,
    pairs: &[OutputPair],
    header: &NameTable,
    stimulus: &Stimulus,
) -> Result<Replayed, NoMemory>
    requires left_bits { length a.now.enabled.now ≡ length a.now.net.now.latches }
    requires right_bits { length b.now.enabled.now ≡ length b.now.net.now.latches }
    requires header { header.now ≡ stimulus.now.names }
    requires places { ArePlacesOf a.now.net.now b.now.net.now pairs.now }
    requires few { length stimulus.now.rows < 2 ^ 32 }
    ensures { IfOk result (AreFound a.now.net.now a.now.enabled.now b.now.net.now b.now.enabled.now pairs.now stimulus.now.names stimulus.now.rows) }
{
    let mut left = Feed::new(alloc, a.net, a.enabled, header)?;
    let mut right = Feed::new(alloc, b.net, b.enabled, header)?;
    let mut differences = Differences::new(alloc);
    let mut firsts = none_settled(alloc, pairs.len())?;
    replay_rows(
        &mut left,
        &mut right,
        pairs,
        stimulus.rows.as_slice(),
        &mut differences,
        &mut firsts,
    )?;
    let settlings = settlings_of(alloc, pairs, &firsts)?;
    Ok(Replayed {
        differences,
        settlings,
    })
}

/// Of so many pairs none is settled in both circuits yet.
fn none_settled(alloc: Global, count: usize) -> Result<Vec<Option<u32>>, NoMemory>
    ensures { IfOk result (λ firsts. firsts.items ≡ replicate count None) }
{
    Ok(vec![in alloc; None; count]?)
}

/// Each pair by its name, and the first cycle in which it is settled in both circuits.
fn settlings_of(
    alloc: Global,
    pairs: &[OutputPair],
    firsts: &[Option<u32>],
) -> Result<Settlings, NoMemory>
    requires { length firsts.now ≡ length pairs.now }
    ensures named { IfOk result (λ settlings. map (λ s. s.pair) settlings ≡ names_of pairs.now) }
    ensures firsts { IfOk result (λ settlings. map (λ s. s.first) settlings ≡ firsts.now) }
{
    let mut settlings = Settlings::new(alloc);
    for (j, pair) in pairs.iter().enumerate() {
        settlings.push(Settling {
            pair: copy_name(&pair.name)?,
            first: firsts[j],
        })?;
    }
    Ok(settlings)
}

/// Puts the differences of all cycles behind those found, and notes of each pair the first cycle in which it is settled in both
/// circuits.
fn replay_rows(
    left: &mut Feed<'_>,
    right: &mut Feed<'_>,
    pairs: &[OutputPair],
    rows: &[Bits],
    found: &mut Differences,
    firsts: &mut [Option<u32>],
) -> Result<(), NoMemory>
    requires left { IsReady left.old rows.now }
    requires right { IsReady right.old rows.now }
    requires places { ArePlacesOf left.old.sim.sim.net right.old.sim.sim.net pairs.now }
    requires few { length rows.now < 2 ^ 32 }
    requires none { firsts.old ≡ replicate (length pairs.now) None }
    ensures { OnOk result (PutsCycles (fed left.old) (fed right.old) pairs.now rows.now found.old found.new firsts.new) }
{
    for row in rows {
        replay_row(left, right, pairs, row.as_slice(), found, firsts)?;
    }
    Ok(())
}

/// Computes the next cycle of both circuits, puts its differences behind those found, and notes which pairs are settled in both.
fn replay_row(
    left: &mut Feed<'_>,
    right: &mut Feed<'_>,
    pairs: &[OutputPair],
    row: &[bool],
    found: &mut Differences,
    firsts: &mut [Option<u32>],
) -> Result<(), NoMemory>
    requires left { CanStep left.old row.now }
    requires right { CanStep right.old row.now }
    requires places { ArePlacesOf left.old.sim.sim.net right.old.sim.sim.net pairs.now }
    requires firsts { length firsts.old ≡ length pairs.now }
    ensures left { Steps left.old row.now left.new }
    ensures right { Steps right.old row.now right.new }
    ensures found { OnOk result (PutsShown left.new.sim right.new.sim pairs.now left.old.sim.sim.cycles found.old found.new firsts.old firsts.new) }
{
    left.step(row);
    right.step(row);
    let cycle = left.sim.cycles() - 1;
    put_shown(&left.sim, &right.sim, pairs, cycle, found, firsts)
}
