//! Comparing the pairs of two circuits from their initial values.

ghost use Rattle.std.specs.Prelude.{◌≤◌, map, IfOk};
ghost use Rattle.sec_setup.specs.ports.Pairs.{places_of};
ghost use Rattle.sec_setup.specs.Setup.{IsSetup};
ghost use Rattle.reset_form.specs.reset_functions.Bases.{AreBases};
ghost use Rattle.reset_form.specs.Formed.{Formed};
ghost use Rattle.reset_form.specs.reset_asked.Numbers.{numbered};
ghost use Rattle.reset_form.specs.Findings.{FindingsFit};
ghost use Rattle.reset_form.specs.reset_functions.Pairs.{HaveFunctions};

use crate::reset_asked::{ResetFindings, ask};
use crate::reset_functions::{Bases, Functions, ResetError, bases_of, unfold_pairs};
use crate::shown::show;
use obligations::{Decided, decide_all, greatest_size, verdict_at};
use sec_base::{MAX_CONFLICTS, NoMemory};
use sec_setup::Setup;
use std::alloc::Global;

/// Unfolds the left signals of the pairs in each cycle up to the pair's depth, then the right ones, where runs begin with the latches'
/// initial values, and decides each pair in order, by its cycles in order up to the first in which its functions don't agree, with at
/// most so many conflicts for each query. `TooLarge` comes exactly where the unfoldings of one circuit's outputs in all these cycles weigh
/// more than 2,000,000 together.
pub fn compare_reset(
    alloc: Global,
    setup: &Setup<'_>,
    conflicts: u32,
) -> Result<ResetFindings, ResetError>
    requires setup { IsSetup setup.now }
    requires conflicts { conflicts ≤ MAX_CONFLICTS }
    ensures { Formed setup.now conflicts result }
{
    let bases = bases_of(setup)?;
    let functions = unfold_pairs(alloc, setup, bases)?;
    let findings = findings_of(alloc, setup, bases, &functions, conflicts)?;
    Ok(findings)
}

/// What is found of the pairs by their functions.
fn findings_of(
    alloc: Global,
    setup: &Setup<'_>,
    bases: Bases,
    functions: &Functions,
    conflicts: u32,
) -> Result<ResetFindings, NoMemory>
    requires setup { IsSetup setup.now }
    requires bases { AreBases setup.now bases }
    requires functions { HaveFunctions setup.now bases functions.now }
    requires conflicts { conflicts ≤ MAX_CONFLICTS }
    ensures { IfOk result (FindingsFit (numbered setup.now bases) conflicts (map places_of setup.now.pairs)) }
{
    setup.left.keeps();
    setup.right.keeps();
    functions.aig.keeps();
    functions.places.keeps();
    let asked = ask(alloc, setup, bases, functions)?;
    let decided = decide_all(alloc, &functions.aig, asked.as_slice(), conflicts)?;
    let Decided {
        results,
        different,
        not_shown,
    } = decided;
    let at = verdict_at(different, not_shown, results.as_slice());
    let verdict = show(
        alloc,
        setup,
        bases,
        functions,
        asked.as_slice(),
        results.as_slice(),
        at,
    )?;
    let through = greatest_size(results.as_slice());
    Ok(ResetFindings {
        pairs: results,
        through,
        verdict,
    })
}
