//! Comparing the pairs of two circuits in the plain form.

ghost use Rattle.std.specs.Prelude.{◌≤◌, map, IfOk};
ghost use Rattle.flat_net.specs.View.{circuit_of};
ghost use Rattle.sec_setup.specs.Cuts.{is_cut};
ghost use Rattle.sec_setup.specs.ports.Pairs.{places_of};
ghost use Rattle.sec_setup.specs.Setup.{IsSetup};
ghost use Rattle.plain_asked.specs.Formed.{Formed};
ghost use Rattle.plain_asked.specs.Apart.{HaveFunctionsApart};
ghost use Rattle.plain_asked.specs.Findings.{FindingsFit};

use crate::plain_form::shown::show;
use obligations::{Decided, decide_all, greatest_size, verdict_at};
use plain_asked::{Findings, PairFunctions, PlainError, ask_apart, unfold_apart};
use sec_base::{MAX_CONFLICTS, NoMemory};
use sec_setup::Setup;
use std::alloc::Global;

/// Unfolds the left signals of the pairs, then the right ones, into functions of the inputs at earlier cycles, and decides each pair
/// in order, with at most so many conflicts for each. Variables are listed for the pairs alone whose literals differ. Where latches are
/// cut open, a pair that differs isn't shown to differ.
/// `TooLarge` comes exactly where the unfoldings of one circuit's outputs weigh more than 2,000,000 together.
pub fn compare_plain(
    alloc: Global,
    setup: &Setup<'_>,
    conflicts: u32,
) -> Result<Findings, PlainError>
    requires setup { IsSetup setup.now }
    requires conflicts { conflicts ≤ MAX_CONFLICTS }
    ensures { Formed setup.now conflicts result }
{
    setup.left.keeps();
    setup.right.keeps();
    let functions = unfold_apart(
        alloc,
        setup.left,
        setup.right,
        setup.left_graph,
        setup.right_graph,
        &setup.orders,
        setup.pairs.as_slice(),
    )?;
    let findings = findings_of(alloc, setup, &functions, conflicts)?;
    Ok(findings)
}

/// What is found of the pairs by their functions.
fn findings_of(
    alloc: Global,
    setup: &Setup<'_>,
    functions: &PairFunctions,
    conflicts: u32,
) -> Result<Findings, NoMemory>
    requires setup { IsSetup setup.now }
    requires functions { HaveFunctionsApart setup.now functions.now }
    requires conflicts { conflicts ≤ MAX_CONFLICTS }
    ensures { IfOk result (λ f. FindingsFit (circuit_of setup.now.left.now) (circuit_of setup.now.right.now) setup.now.orders.left setup.now.orders.right setup.now.columns (is_cut setup.now.exposed) conflicts (map places_of setup.now.pairs) f) }
{
    setup.left.keeps();
    setup.right.keeps();
    let own = &functions.functions;
    own.aig.keeps();
    own.places.keeps();
    let asked = ask_apart(alloc, setup, functions)?;
    let decided = decide_all(alloc, &own.aig, asked.as_slice(), conflicts)?;
    let Decided {
        results,
        different,
        not_shown,
    } = decided;
    let at = verdict_at(different, not_shown, results.as_slice());
    let verdict = show(
        alloc,
        own,
        &setup.columns,
        asked.as_slice(),
        results.as_slice(),
        at,
    )?;
    let through = greatest_size(results.as_slice());
    Ok(Findings {
        pairs: results,
        through,
        verdict,
    })
}
