//! The pairs in one cycle, where all earlier ones are unfolded.

ghost use Rattle.std.specs.Prelude.{◌+◌, ◌≤◌, map, IfOk, OnOk};
ghost use Rattle.sec_setup.specs.ports.Pairs.{places_of};
ghost use Rattle.merged_graph.specs.Merged.{IsMerged};
ghost use Rattle.reset_form.specs.reset_asked.Numbers.{numbered};
ghost use Rattle.reset_form.specs.reset_functions.Bases.{AreBases};
ghost use Rattle.cycle_search.specs.Settings.{IsSetting};
ghost use Rattle.cycle_search.specs.Cycles.{IsUnfoldedBefore, Compared, AreFunctionsIn, IsFoundIn};

use crate::apart::{Literals, functions_apart};
use crate::asked::ask;
use crate::merging::wide_pairs;
use crate::outputs::unfold_side;
use crate::shown::show;
use aig::Aig;
use base_tables::PlaceTable;
use cbf_unfold::unfold_places::Unfolded;
use merged_graph::MergedGraph;
use obligations::outcome::PairResults;
use obligations::{Decided, decide_near, verdict_at};
use reset_form::reset_functions::{Bases, Functions};
use reset_form::reset_unfold::ResetUnfolder;
use reset_form::{ResetError, ResetVerdict};
use sec_base::{MAX_CONFLICTS, NoMemory, Side};
use sec_setup::Setup;
use std::alloc::Global;

/// Both circuits, unfolded in the cycles before one, on one graph and one table.
pub(crate) struct Unfolding<'a> {
    left: ResetUnfolder<'a>,
    right: ResetUnfolder<'a>,
    /// The graph and the table. The functions of a cycle aren't kept beyond it.
    functions: Functions,
    /// What agrees of the graph's nodes, as far as it was proved.
    merged: MergedGraph,
}

/// It is let go by one call: an owner isn't taken apart field by field at each way out.
impl Drop for Unfolding<'_> {
    fn drop(self) {
        let Unfolding {
            left: _,
            right: _,
            functions: _,
            merged: _,
        } = self;
    }
}

/// What is found of the pairs in one cycle.
#[derive(Drop)]
pub struct InCycle {
    /// One result for each pair, in order.
    pub pairs: PairResults,
    pub verdict: ResetVerdict,
}

/// Both circuits before cycle 0: nothing is unfolded.
pub(crate) fn begin<'a>(
    alloc: Global,
    setup: &Setup<'a>,
    bases: Bases,
) -> Result<Unfolding<'a>, NoMemory>
    requires setup { IsSetting setup.now }
    requires bases { AreBases setup.now bases }
    ensures { IfOk result (IsUnfoldedBefore setup.now bases 0) }
{
    let left = ResetUnfolder::new(
        alloc,
        setup.left,
        setup.left_graph,
        &setup.orders.left,
        bases.left,
    )?;
    let right = ResetUnfolder::new(
        alloc,
        setup.right,
        setup.right_graph,
        &setup.orders.right,
        bases.right,
    )?;
    let aig = Aig::new(alloc)?;
    let places = PlaceTable::new(alloc);
    let functions = Functions {
        aig,
        places,
        left: Vec::new(alloc),
        right: Vec::new(alloc),
    };
    let merged = MergedGraph::new(alloc)?;
    Ok(Unfolding {
        left,
        right,
        functions,
        merged,
    })
}

/// Unfolds the pairs in the cycle, first all of A and then all of B, and decides each with at most so many conflicts. All earlier cycles are
/// unfolded. `TooLarge` comes exactly where the unfoldings of one circuit's outputs in all cycles up to this one weigh more than 2,000,000
/// together; then nothing more is unfolded.
pub(crate) fn compare_cycle(
    alloc: Global,
    setup: &Setup<'_>,
    bases: Bases,
    unfolded: &mut Unfolding<'_>,
    cycle: u32,
    conflicts: u32,
) -> Result<InCycle, ResetError>
    requires setup { IsSetting setup.now }
    requires bases { AreBases setup.now bases }
    requires before { IsUnfoldedBefore setup.now bases cycle unfolded.old }
    requires conflicts { conflicts ≤ MAX_CONFLICTS }
    ensures compared { Compared setup.now bases cycle conflicts result }
    ensures after { OnOk result (IsUnfoldedBefore setup.now bases (cycle + 1) unfolded.new) }
{
    setup.left.keeps();
    setup.right.keeps();
    let left = unfold_side(
        alloc,
        Side::A,
        setup.pairs.as_slice(),
        cycle,
        &mut unfolded.left,
        &mut unfolded.functions.aig,
        &mut unfolded.functions.places,
    )?;
    let right = unfold_side(
        alloc,
        Side::B,
        setup.pairs.as_slice(),
        cycle,
        &mut unfolded.right,
        &mut unfolded.functions.aig,
        &mut unfolded.functions.places,
    )?;
    let literals = Literals { left, right };
    let sides = functions_apart(
        alloc,
        &unfolded.left,
        &unfolded.right,
        &mut unfolded.functions,
        setup.pairs.as_slice(),
        &literals,
        cycle,
    )?;
    let left = sides.left.as_slice();
    let right = sides.right.as_slice();
    let asked = wide_pairs(alloc, left, right)?;
    unfolded.merged.merge(alloc, &unfolded.functions.aig, asked.as_slice(), conflicts)?;
    let found = decide_cycle(alloc, setup, bases, unfolded, left, right, cycle, conflicts)?;
    Ok(found)
}

/// What is found of the pairs by their functions in the cycle.
fn decide_cycle(
    alloc: Global,
    setup: &Setup<'_>,
    bases: Bases,
    unfolded: &Unfolding<'_>,
    left: &[Unfolded],
    right: &[Unfolded],
    cycle: u32,
    conflicts: u32,
) -> Result<InCycle, NoMemory>
    requires setup { IsSetting setup.now }
    requires bases { AreBases setup.now bases }
    requires functions { AreFunctionsIn setup.now bases unfolded.now.functions cycle left.now right.now }
    requires merged { IsMerged unfolded.now.functions.aig unfolded.now.merged }
    requires conflicts { conflicts ≤ MAX_CONFLICTS }
    ensures { IfOk result (IsFoundIn (numbered setup.now bases) conflicts cycle (map places_of setup.now.pairs)) }
{
    let functions = &unfolded.functions;
    functions.aig.keeps();
    functions.places.keeps();
    let asked = ask(
        alloc,
        functions,
        &unfolded.merged,
        setup.pairs.as_slice(),
        left,
        right,
        cycle,
    )?;
    let told = unfolded.merged.told.as_slice();
    let decided = decide_near(alloc, &functions.aig, asked.as_slice(), told, conflicts)?;
    let Decided {
        results,
        different,
        not_shown,
    } = decided;
    let at = verdict_at(different, not_shown, results.as_slice());
    let verdict = show(
        alloc,
        setup,
        bases,
        functions,
        asked.as_slice(),
        results.as_slice(),
        cycle,
        at,
    )?;
    Ok(InCycle {
        pairs: results,
        verdict,
    })
}
