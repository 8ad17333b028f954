//! The outcomes of comparisons under an assumption.

ghost use Rattle.std.specs.Prelude.{◌≡◌, ◌<◌, [], ◌∷◌, length, Some, IfOk};
ghost use Rattle.flat_net.specs.Comparable.{IsComparable};
ghost use Rattle.flat_net.specs.declared.parts.Port.{Port};
ghost use Rattle.obligations.specs.declared.outcome.verdict.LimitAt.TheVariants as limit_at;
ghost use Rattle.obligations.specs.declared.outcome.verdict.Verdict.TheVariants as verdict;
ghost use Rattle.job_check.specs.compare_under.Verdicts.{verdict_of};

use crate::compare_under::circuits::Circuits;
use flat_net::Net;
use obligations::outcome::{LimitAt, Outcome, PairResults, Proof, Verdict};
use plain_check::asked_under::plain_asked_under::Findings;
use plain_check::asked_under::reset_asked_under::ResetVerdict;
use sec_base::{NoMemory, Word, Words};
use sec_setup::Setup;
use std::alloc::Global;

/// The name of the output of a net that has one.
pub(crate) fn name_of(c: &Net) -> Result<Word, NoMemory>
    requires { 0 < length c.now.outputs }
    ensures { IfOk result (λ name. (p : Port) → c.now.outputs ≡ p ∷ [] → name ≡ p.name) }
{
    c.outputs()[0].name.copy()
}

/// The outcome where it wasn't decided whether some row meets the assumption.
pub(crate) fn undecided(
    alloc: Global,
    circuits: &Circuits<'_>,
    proof: Proof,
) -> Result<Outcome, NoMemory>
    requires left { IsComparable circuits.now.nets.left.now }
    requires right { IsComparable circuits.now.nets.right.now }
    requires output { 0 < length circuits.now.assumed.now.outputs }
    ensures { IfOk result (λ o. (p : Port) → circuits.now.assumed.now.outputs ≡ p ∷ [] → o ≡ record { inputs = length circuits.now.shared.now; left_latches = length circuits.now.nets.left.now.latches; right_latches = length circuits.now.nets.right.now.latches; assumed = Some p.name; exposed = []; classes = 0; pairs = []; through = 0; verdict = verdict.Limit (limit_at.Assume proof) }) }
{
    let left = circuits.nets.left;
    let right = circuits.nets.right;
    let name = name_of(circuits.assumed)?;
    Ok(Outcome {
        inputs: circuits.shared.len(),
        left_latches: left.latches().len() as u32,
        right_latches: right.latches().len() as u32,
        assumed: Some(name),
        exposed: Words::new(alloc),
        classes: 0,
        pairs: PairResults::new(alloc),
        through: 0,
        verdict: Verdict::Limit(LimitAt::Assume(proof)),
    })
}

/// The outcome by what is found of the pairs of a setup of these nets under an assumption whose output has this name.
pub(crate) fn outcome_of(
    a: &Net,
    b: &Net,
    name: Word,
    setup: Setup<'_>,
    findings: Findings,
) -> Outcome
    ensures { result ≡ record { inputs = setup.entry.inputs; left_latches = length a.now.latches; right_latches = length b.now.latches; assumed = Some name; exposed = setup.entry.exposed; classes = 0; pairs = findings.pairs; through = findings.through; verdict = findings.verdict } }
{
    a.keeps();
    b.keeps();
    Outcome {
        inputs: setup.inputs,
        left_latches: a.latches().len() as u32,
        right_latches: b.latches().len() as u32,
        assumed: Some(name),
        exposed: setup.into_exposed(),
        classes: 0,
        pairs: findings.pairs,
        through: findings.through,
        verdict: findings.verdict,
    }
}

/// The verdict from the initial values, as an outcome has it.
pub(crate) fn verdict_of(verdict: ResetVerdict) -> Verdict
    ensures { result ≡ verdict_of verdict }
{
    match verdict {
        ResetVerdict::Equal => Verdict::Equal,
        ResetVerdict::Different(witness) => Verdict::DifferentFrom(witness),
        ResetVerdict::Limit(name) => Verdict::Limit(LimitAt::Pair(name)),
    }
}
