//! The order of the steps of a comparison under an assumption.

ghost use Rattle.std.specs.Prelude.{◌≡◌, ◌+◌, ◌≤◌, true, false, length};
ghost use Rattle.circuit_theory.specs.declared.Mode.TheVariants.{Plain};
ghost use Rattle.flat_net.specs.Comparable.{IsComparable};
ghost use Rattle.sec_setup.specs.Choosing.{IsChosen};
ghost use Rattle.sec_setup.specs.Cuts.{AreCutBy};
ghost use Rattle.sec_setup.specs.Setup.{AreGraphed};
ghost use Rattle.assume_queries.specs.assume_sequences.assume_taken.Premises.{IsPremiseOf};
ghost use Rattle.plain_check.specs.under_base.Compared.{ComparedUnder};
ghost use Rattle.job_check.specs.compare_under.Circuits.{AreMatched};
ghost use Rattle.job_check.specs.compare_under.Refusals.{refusal_under};
ghost use Rattle.plain_check.specs.under_base.Refusals.{refusal_of};

use crate::compare_under::circuits::Circuits;
use crate::compare_under::cutting::cut_nets;
use crate::compare_under::outcomes::{name_of, outcome_of, undecided, verdict_of};
use assume_laws::assume_shape::ShapeFault;
use flat_net::Net;
use obligations::outcome::{Outcome, Settings};
use plain_check::asked_under::CompareUnderError;
use plain_check::asked_under::plain_asked_under::{Findings, Premise, compare_plain_under};
use plain_check::asked_under::reset_asked_under::{ResetFindings, compare_reset_under};
use plain_check::under_base::{CompareError, TakeError, Taken, take, widen};
use sec_base::MAX_CONFLICTS;
use sec_setup::cut_points::Exposure;
use sec_setup::{Nets, choose, graph_of, set_up, shared_names};
use std::alloc::Global;

/// Compares the circuits `a` and `b` in the runs whose inputs make the output of the circuit `c` 1 in each cycle. It is done as without
/// `c`, each query of a pair with `c` as its care at the places of the pair's variables; where a pair differs, each cycle of the sequence
/// meets `c`. It refuses, in this order: interfaces that don't match; as `Assume` the first fault of `c`: a latch, a number of outputs
/// that isn't one, an input that isn't shared, a weight at one place above 2,000,000; as `Vacuous` a `c` that no row of inputs meets; a
/// cycle, and an unfolding that is too large, as without `c`; and as `Assume` again a `c` that is too large at the places of all pairs.
/// Where it isn't decided whether some row meets `c`, nothing is compared, and the verdict is that limit.
pub fn compare_under(
    alloc: Global,
    a: &Net,
    b: &Net,
    c: &Net,
    settings: &Settings,
) -> Result<Outcome, CompareError>
    requires plain { settings.now.mode ≡ Plain }
    requires uncut { settings.now.reset ≡ true → settings.now.expose ≡ false }
    requires conflicts { settings.now.conflicts ≤ MAX_CONFLICTS }
    requires left { IsComparable a.now }
    requires right { IsComparable b.now }
    requires assumed { IsComparable c.now }
    ensures { ComparedUnder a.now b.now c.now settings.now result }
{
    let shared = shared_names(alloc, a, b)?;
    let left_graph = graph_of(alloc, a)?;
    let right_graph = graph_of(alloc, b)?;
    let circuits = Circuits {
        nets: Nets {
            left: a,
            right: b,
            left_graph: &left_graph,
            right_graph: &right_graph,
        },
        assumed: c,
        shared: &shared,
    };
    compare_matching(alloc, &circuits, settings)
}

/// Compares circuits whose interfaces match, if the third one is an assumption.
fn compare_matching(
    alloc: Global,
    circuits: &Circuits<'_>,
    settings: &Settings,
) -> Result<Outcome, CompareError>
    requires uncut { settings.now.reset ≡ true → settings.now.expose ≡ false }
    requires conflicts { settings.now.conflicts ≤ MAX_CONFLICTS }
    requires matched { AreMatched circuits.now }
    ensures { ComparedUnder circuits.now.nets.left.now circuits.now.nets.right.now circuits.now.assumed.now settings.now result }
{
    circuits.nets.left.keeps();
    circuits.nets.right.keeps();
    match take(alloc, circuits.assumed, circuits.shared, settings.conflicts) {
        Ok(Taken::Met(premise)) => compare_met(alloc, circuits, premise, settings),
        Ok(Taken::Limit(proof)) => Ok(undecided(alloc, circuits, proof)?),
        Err(error) => Err(refusal_of(error)),
    }
}

/// Why a circuit that isn't taken isn't assumed in a comparison.
fn refusal_of(error: TakeError) -> CompareError
    ensures { result ≡ refusal_of error }
{
    match error {
        TakeError::Fault(fault) => CompareError::Assume(fault),
        TakeError::Vacuous(by) => CompareError::Vacuous(by),
        TakeError::NoMemory => CompareError::NoMemory,
    }
}

/// Compares the circuits under the assumption of this premise.
fn compare_met(
    alloc: Global,
    circuits: &Circuits<'_>,
    premise: Premise,
    settings: &Settings,
) -> Result<Outcome, CompareError>
    requires uncut { settings.now.reset ≡ true → settings.now.expose ≡ false }
    requires conflicts { settings.now.conflicts ≤ MAX_CONFLICTS }
    requires matched { AreMatched circuits.now }
    requires premise { IsPremiseOf circuits.now.shared.now circuits.now.assumed.now (length circuits.now.shared.now) premise }
    ensures { ComparedUnder circuits.now.nets.left.now circuits.now.nets.right.now circuits.now.assumed.now settings.now result }
{
    let nets = &circuits.nets;
    let exposure = choose(alloc, nets, settings.expose)?;
    let premise = widen(premise, exposure.names.len())?;
    if settings.reset {
        return compare_from(alloc, circuits, &exposure, &premise, settings);
    }
    if exposure.names.len() == 0 {
        return compare_nets(alloc, circuits, nets, &exposure, &premise, settings);
    }
    compare_exposed(alloc, circuits, &exposure, &premise, settings)
}

/// Compares the circuits where runs begin with the latches' initial values. No latch is cut open.
fn compare_from(
    alloc: Global,
    circuits: &Circuits<'_>,
    exposure: &Exposure,
    premise: &Premise,
    settings: &Settings,
) -> Result<Outcome, CompareError>
    requires reset { settings.now.reset ≡ true }
    requires uncut { settings.now.expose ≡ false }
    requires conflicts { settings.now.conflicts ≤ MAX_CONFLICTS }
    requires matched { AreMatched circuits.now }
    requires chosen { IsChosen circuits.now.nets.left.now circuits.now.nets.right.now settings.now.expose exposure.now }
    requires premise { IsPremiseOf circuits.now.shared.now circuits.now.assumed.now (length circuits.now.shared.now + length exposure.now.names) premise.now }
    ensures { ComparedUnder circuits.now.nets.left.now circuits.now.nets.right.now circuits.now.assumed.now settings.now result }
{
    let nets = &circuits.nets;
    nets.left.keeps();
    nets.right.keeps();
    let name = name_of(circuits.assumed)?;
    let setup = set_up(
        alloc,
        nets.left,
        nets.right,
        nets,
        circuits.shared,
        exposure,
    )?;
    match compare_reset_under(alloc, &setup, premise, settings.conflicts) {
        Ok(findings) => {
            let ResetFindings {
                pairs,
                through,
                verdict,
            } = findings;
            let verdict = verdict_of(verdict);
            let findings = Findings {
                pairs,
                through,
                verdict,
            };
            Ok(outcome_of(nets.left, nets.right, name, setup, findings))
        }
        Err(error) => Err(refusal_under(error)),
    }
}

/// Why circuits that are too large, or for which the assumption is, aren't compared.
fn refusal_under(error: CompareUnderError) -> CompareError
    ensures { result ≡ refusal_under error }
{
    match error {
        CompareUnderError::TooLarge(side) => CompareError::TooLarge(side),
        CompareUnderError::AssumptionTooLarge => CompareError::Assume(ShapeFault::TooLarge),
        CompareUnderError::NoMemory => CompareError::NoMemory,
    }
}

/// Compares the circuits by the nets in which the exposed latches are cut out.
fn compare_exposed(
    alloc: Global,
    circuits: &Circuits<'_>,
    exposure: &Exposure,
    premise: &Premise,
    settings: &Settings,
) -> Result<Outcome, CompareError>
    requires settling { settings.now.reset ≡ false }
    requires conflicts { settings.now.conflicts ≤ MAX_CONFLICTS }
    requires matched { AreMatched circuits.now }
    requires chosen { IsChosen circuits.now.nets.left.now circuits.now.nets.right.now settings.now.expose exposure.now }
    requires premise { IsPremiseOf circuits.now.shared.now circuits.now.assumed.now (length circuits.now.shared.now + length exposure.now.names) premise.now }
    ensures { ComparedUnder circuits.now.nets.left.now circuits.now.nets.right.now circuits.now.assumed.now settings.now result }
{
    let nets = &circuits.nets;
    let cut = cut_nets(alloc, nets.left, nets.right, exposure)?;
    compare_cut(
        alloc, circuits, &cut.left, &cut.right, exposure, premise, settings,
    )
}

/// Compares the circuits by these nets, in which the exposed latches are cut out.
fn compare_cut(
    alloc: Global,
    circuits: &Circuits<'_>,
    left: &Net,
    right: &Net,
    exposure: &Exposure,
    premise: &Premise,
    settings: &Settings,
) -> Result<Outcome, CompareError>
    requires settling { settings.now.reset ≡ false }
    requires conflicts { settings.now.conflicts ≤ MAX_CONFLICTS }
    requires matched { AreMatched circuits.now }
    requires chosen { IsChosen circuits.now.nets.left.now circuits.now.nets.right.now settings.now.expose exposure.now }
    requires cut { AreCutBy circuits.now.nets.left.now circuits.now.nets.right.now exposure.now left.now right.now }
    requires premise { IsPremiseOf circuits.now.shared.now circuits.now.assumed.now (length circuits.now.shared.now + length exposure.now.names) premise.now }
    ensures { ComparedUnder circuits.now.nets.left.now circuits.now.nets.right.now circuits.now.assumed.now settings.now result }
{
    let left_graph = graph_of(alloc, left)?;
    let right_graph = graph_of(alloc, right)?;
    let cut = Nets {
        left,
        right,
        left_graph: &left_graph,
        right_graph: &right_graph,
    };
    compare_nets(alloc, circuits, &cut, exposure, premise, settings)
}

/// Compares the circuits by the nets in which the exposed latches are cut out, which are the circuits' own where none is.
fn compare_nets(
    alloc: Global,
    circuits: &Circuits<'_>,
    cut: &Nets<'_>,
    exposure: &Exposure,
    premise: &Premise,
    settings: &Settings,
) -> Result<Outcome, CompareError>
    requires settling { settings.now.reset ≡ false }
    requires conflicts { settings.now.conflicts ≤ MAX_CONFLICTS }
    requires matched { AreMatched circuits.now }
    requires chosen { IsChosen circuits.now.nets.left.now circuits.now.nets.right.now settings.now.expose exposure.now }
    requires cut { AreCutBy circuits.now.nets.left.now circuits.now.nets.right.now exposure.now cut.now.left.now cut.now.right.now }
    requires graphs { AreGraphed cut.now }
    requires premise { IsPremiseOf circuits.now.shared.now circuits.now.assumed.now (length circuits.now.shared.now + length exposure.now.names) premise.now }
    ensures { ComparedUnder circuits.now.nets.left.now circuits.now.nets.right.now circuits.now.assumed.now settings.now result }
{
    let nets = &circuits.nets;
    nets.left.keeps();
    nets.right.keeps();
    let name = name_of(circuits.assumed)?;
    let setup = set_up(alloc, nets.left, nets.right, cut, circuits.shared, exposure)?;
    match compare_plain_under(alloc, &setup, premise, settings.conflicts) {
        Ok(findings) => Ok(outcome_of(nets.left, nets.right, name, setup, findings)),
        Err(error) => Err(refusal_under(error)),
    }
}
