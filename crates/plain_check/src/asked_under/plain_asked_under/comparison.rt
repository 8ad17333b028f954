//! Comparing the pairs of two circuits under an assumption.

ghost use Rattle.std.specs.Prelude.{◌≡◌, ◌+◌, ◌*◌, ◌≤◌, length, map, Ok, IfOk};
ghost use Rattle.plain_asked.specs.Pairs.{Unfolds};
ghost use Rattle.flat_net.specs.View.{circuit_of};
ghost use Rattle.assume_laws.specs.Assume.{Assumption};
ghost use Rattle.assume_queries.specs.assume_sequences.Filled.{bit_of};
ghost use Rattle.sec_setup.specs.Cuts.{is_cut};
ghost use Rattle.sec_setup.specs.ports.Pairs.{places_of};
ghost use Rattle.sec_setup.specs.Setup.{IsSetup};
ghost use Rattle.assume_queries.specs.assume_sequences.Assumed.{CanBeAssumed};
ghost use Rattle.plain_check.specs.asked_under.plain_asked_under.Asked.{AreAskedUnder, CanBeDecided};
ghost use Rattle.plain_check.specs.asked_under.plain_asked_under.Formed.{FormedUnder};
ghost use Rattle.plain_check.specs.asked_under.plain_asked_under.Verdict.{FindingsFitUnder};

use crate::asked_under::error::CompareUnderError;
use crate::asked_under::plain_asked_under::shown::show_under;
use assume_queries::asked_under;
use assume_queries::assume_answers::VariableOrder;
use assume_queries::assume_sequences::Premise;
use obligations::{Decided, Obligation, decide_all, greatest_size, verdict_at};
use plain_asked::{Findings, Functions, ask, unfold_pairs};
use sec_base::{Bits, MAX_CONFLICTS, MAX_WEIGHT, NoMemory};
use sec_setup::Setup;
use std::alloc::Global;

/// Compares the pairs as without an assumption, each query with the assumption as its care at the places of the query's variables. Where
/// the functions of a pair differ under it, the sequence has the premise's row in each cycle at whose place the pair has no variable.
/// `TooLarge` comes as without it, and then `AssumptionTooLarge` exactly where the assumption weighs more than 2,000,000 at all places of
/// the pairs' variables, with one more for each place of each pair.
pub fn compare_plain_under(
    alloc: Global,
    setup: &Setup<'_>,
    premise: &Premise,
    conflicts: u32,
) -> Result<Findings, CompareUnderError>
    requires setup { IsSetup setup.now }
    requires premise { CanBeAssumed premise.now (length setup.now.columns) }
    requires conflicts { conflicts ≤ MAX_CONFLICTS }
    ensures { FormedUnder setup.now premise.now conflicts result }
{
    setup.left.keeps();
    setup.right.keeps();
    let mut functions = unfold_pairs(
        alloc,
        setup.left,
        setup.right,
        setup.left_graph,
        setup.right_graph,
        &setup.orders,
        setup.pairs.as_slice(),
    )?;
    compare_functions(alloc, setup, &mut functions, premise, conflicts)
}

/// Compares the pairs by their functions, to whose graph and table those of the assumption are added.
fn compare_functions(
    alloc: Global,
    setup: &Setup<'_>,
    functions: &mut Functions,
    premise: &Premise,
    conflicts: u32,
) -> Result<Findings, CompareUnderError>
    requires setup { IsSetup setup.now }
    requires unfolds { Unfolds setup.now.left.now setup.now.right.now setup.now.orders.left setup.now.orders.right setup.now.pairs (Ok functions.old) }
    requires small { length functions.old.aig ≤ 2 * MAX_WEIGHT + 1 }
    requires few { length functions.old.places ≤ 2 * MAX_WEIGHT }
    requires premise { CanBeAssumed premise.now (length setup.now.columns) }
    requires conflicts { conflicts ≤ MAX_CONFLICTS }
    ensures { FormedUnder setup.now premise.now conflicts result }
{
    setup.left.keeps();
    setup.right.keeps();
    functions.aig.keeps();
    functions.places.keeps();
    let asked = ask(alloc, setup, functions)?;
    let under = asked_under(
        alloc,
        VariableOrder::Shifts,
        &premise.own,
        premise.weight,
        &mut functions.aig,
        &mut functions.places,
        asked.as_slice(),
    )?;
    let findings = findings_under(
        alloc,
        setup,
        functions,
        asked.as_slice(),
        under.as_slice(),
        &premise.meeting,
        conflicts,
    )?;
    Ok(findings)
}

/// What is found of the pairs by what is asked of them without the assumption and under it.
fn findings_under(
    alloc: Global,
    setup: &Setup<'_>,
    functions: &Functions,
    asked: &[Obligation],
    under: &[Obligation],
    meeting: &Bits,
    conflicts: u32,
) -> Result<Findings, NoMemory>
    requires setup { IsSetup setup.now }
    requires asked { CanBeDecided setup.now functions.now asked.now under.now meeting.now }
    requires bits { length meeting.now ≡ length setup.now.columns }
    requires conflicts { conflicts ≤ MAX_CONFLICTS }
    ensures { IfOk result (λ f. (c : Assumption) → AreAskedUnder setup.now functions.now asked.now under.now meeting.now c → FindingsFitUnder c (circuit_of setup.now.left.now) (circuit_of setup.now.right.now) setup.now.orders.left setup.now.orders.right setup.now.columns (bit_of meeting.now) (is_cut setup.now.exposed) conflicts (map places_of setup.now.pairs) f) }
{
    setup.left.keeps();
    setup.right.keeps();
    functions.aig.keeps();
    functions.places.keeps();
    let decided = decide_all(alloc, &functions.aig, under, conflicts)?;
    let Decided {
        results,
        different,
        not_shown,
    } = decided;
    let at = verdict_at(different, not_shown, results.as_slice());
    let verdict = show_under(
        alloc,
        functions,
        &setup.columns,
        asked,
        under,
        meeting,
        results.as_slice(),
        at,
    )?;
    let through = greatest_size(results.as_slice());
    Ok(Findings {
        pairs: results,
        through,
        verdict,
    })
}
