//! The pairs in one cycle under an assumption, where all earlier cycles are unfolded.

ghost use Rattle.std.specs.Prelude.{◌≡◌, ◌+◌, ◌≤◌, map, IfOk, OnOk};
ghost use Rattle.sec_setup.specs.ports.Pairs.{places_of};
ghost use Rattle.assume_laws.specs.Assume.{Assumption};
ghost use Rattle.assume_queries.specs.declared.assume_sequences.premise.Premise.{Premise};
ghost use Rattle.assume_queries.specs.Parted.{Weighs};
ghost use Rattle.reset_form.specs.reset_asked.Numbers.{numbered};
ghost use Rattle.reset_form.specs.reset_functions.Bases.{AreBases};
ghost use Rattle.cycle_search.specs.Cycles.{AreFunctionsIn};
ghost use Rattle.cycle_search.specs.Settings.{IsSetting};
ghost use Rattle.cycle_under.specs.Cares.{IsCareFirst};
ghost use Rattle.cycle_under.specs.Cycles.{IsUnfoldedBefore, IsLightUpTo, ComparedUnder, IsFoundUnder};

use crate::asked::ask;
use crate::care::care_with;
use aig::{Aig, Lit};
use assume_queries::assume_sequences::Premise;
use base_tables::PlaceTable;
use cbf_unfold::unfold_places::Unfolded;
use cycle_search::{CycleFunctions, InCycle, Literals, functions_apart, show, unfold_side};
use obligations::{Decided, decide_all, verdict_at};
use reset_form::ResetError;
use reset_form::reset_functions::{Bases, Functions};
use reset_form::reset_unfold::ResetUnfolder;
use sec_base::{Ids, MAX_CONFLICTS, NoMemory, Side};
use sec_setup::Setup;
use std::alloc::Global;

/// Both circuits, and the assumption as the care of a cycle, unfolded in the cycles before one, on one graph and one table.
pub(crate) struct Unfolding<'a> {
    left: ResetUnfolder<'a>,
    right: ResetUnfolder<'a>,
    /// The graph and the table. The functions of a cycle aren't kept beyond it.
    functions: Functions,
    /// The assumption in all cycles before this one.
    care: Unfolded,
}

/// It is let go by one call: an owner isn't taken apart field by field at each way out.
impl Drop for Unfolding<'_> {
    fn drop(self) {
        let Unfolding {
            left: _,
            right: _,
            functions: _,
            care: _,
        } = self;
    }
}

/// Both circuits before cycle 0: nothing is unfolded, and the care holds always.
pub(crate) fn begin<'a>(
    alloc: Global,
    setup: &Setup<'a>,
    bases: Bases,
) -> Result<Unfolding<'a>, NoMemory>
    requires setup { IsSetting setup.now }
    requires bases { AreBases setup.now bases }
    ensures { IfOk result (λ u. (p : Premise) → IsUnfoldedBefore setup.now bases p 0 u) }
{
    let left = ResetUnfolder::new(
        alloc,
        setup.left,
        setup.left_graph,
        &setup.orders.left,
        bases.left,
    )?;
    let right = ResetUnfolder::new(
        alloc,
        setup.right,
        setup.right_graph,
        &setup.orders.right,
        bases.right,
    )?;
    let aig = Aig::new(alloc)?;
    aig.keeps();
    let places = PlaceTable::new(alloc);
    let functions = Functions {
        aig,
        places,
        left: Vec::new(alloc),
        right: Vec::new(alloc),
    };
    let vars = Ids::new(alloc);
    let care = Unfolded {
        lit: Lit::TRUE,
        vars,
    };
    Ok(Unfolding {
        left,
        right,
        functions,
        care,
    })
}

/// Unfolds the pairs in the cycle, first all of A and then all of B, and the assumption, and decides each with at most so many conflicts. All
/// earlier cycles are unfolded. `TooLarge` comes exactly where the unfoldings of one circuit's outputs in all cycles up to this one weigh more
/// than 2,000,000 together.
pub(crate) fn compare_cycle(
    alloc: Global,
    setup: &Setup<'_>,
    bases: Bases,
    premise: &Premise,
    unfolded: &mut Unfolding<'_>,
    cycle: u32,
    conflicts: u32,
) -> Result<InCycle, ResetError>
    requires setup { IsSetting setup.now }
    requires bases { AreBases setup.now bases }
    requires premise { Weighs premise.now.own premise.now.weight }
    requires light { IsLightUpTo premise.now cycle }
    requires before { IsUnfoldedBefore setup.now bases premise.now cycle unfolded.old }
    requires conflicts { conflicts ≤ MAX_CONFLICTS }
    ensures compared { ComparedUnder setup.now bases premise.now cycle conflicts result }
    ensures after { OnOk result (IsUnfoldedBefore setup.now bases premise.now (cycle + 1) unfolded.new) }
{
    setup.left.keeps();
    setup.right.keeps();
    let pairs = setup.pairs.as_slice();
    let left = unfold_side(
        alloc,
        Side::A,
        pairs,
        cycle,
        &mut unfolded.left,
        &mut unfolded.functions.aig,
        &mut unfolded.functions.places,
    )?;
    let right = unfold_side(
        alloc,
        Side::B,
        pairs,
        cycle,
        &mut unfolded.right,
        &mut unfolded.functions.aig,
        &mut unfolded.functions.places,
    )?;
    unfolded.functions.aig.keeps();
    let care = care_with(
        alloc,
        premise,
        &mut unfolded.functions.aig,
        &mut unfolded.functions.places,
        &unfolded.care,
        cycle,
    )?;
    unfolded.care = care;
    let literals = Literals { left, right };
    let sides = functions_apart(
        alloc,
        &unfolded.left,
        &unfolded.right,
        &mut unfolded.functions,
        pairs,
        &literals,
        cycle,
    )?;
    let found = decide_cycle(alloc, setup, bases, unfolded, &sides, cycle, conflicts)?;
    Ok(found)
}

/// Decides the pairs by their functions in the cycle, where the care holds.
fn decide_cycle(
    alloc: Global,
    setup: &Setup<'_>,
    bases: Bases,
    unfolded: &Unfolding<'_>,
    sides: &CycleFunctions,
    cycle: u32,
    conflicts: u32,
) -> Result<InCycle, NoMemory>
    requires setup { IsSetting setup.now }
    requires bases { AreBases setup.now bases }
    requires functions { AreFunctionsIn setup.now bases unfolded.now.functions cycle sides.now.left.items sides.now.right.items }
    requires cared { (c : Assumption) × IsCareFirst c unfolded.now.functions.aig unfolded.now.functions.places (cycle + 1) unfolded.now.care }
    requires conflicts { conflicts ≤ MAX_CONFLICTS }
    ensures { IfOk result (λ f. (c : Assumption) → IsCareFirst c unfolded.now.functions.aig unfolded.now.functions.places (cycle + 1) unfolded.now.care → IsFoundUnder c (numbered setup.now bases) conflicts cycle (map places_of setup.now.pairs) f) }
{
    let functions = &unfolded.functions;
    functions.aig.keeps();
    functions.places.keeps();
    let pairs = setup.pairs.as_slice();
    let (left, right) = (sides.left.as_slice(), sides.right.as_slice());
    let asked = ask(
        alloc,
        &functions.places,
        &unfolded.care,
        pairs,
        left,
        right,
        cycle,
    )?;
    let decided = decide_all(alloc, &functions.aig, asked.as_slice(), conflicts)?;
    let Decided {
        results,
        different,
        not_shown,
    } = decided;
    let at = verdict_at(different, not_shown, results.as_slice());
    let verdict = show(
        alloc,
        setup,
        bases,
        functions,
        asked.as_slice(),
        results.as_slice(),
        cycle,
        at,
    )?;
    Ok(InCycle {
        pairs: results,
        verdict,
    })
}
