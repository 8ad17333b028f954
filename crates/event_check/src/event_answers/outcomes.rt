//! Outcomes of comparisons in the event form.

ghost use Rattle.std.specs.Prelude.{◌≡◌, [], length, IfOk};
ghost use Rattle.obligations.specs.declared.outcome.verdict.Verdict.TheVariants as verdict;
ghost use Rattle.event_setup.specs.event_meaning.event_names.Nameable.{CanBeNamed};
ghost use Rattle.event_check.specs.event_answers.Finding.{IsNamedFound};

use event_comparison::EventFindings;
use event_settles::PairCares;
use event_setup::event_meaning::event_names::{Names, named_verdict};
use flat_net::Net;
use obligations::outcome::{LimitAt, Outcome, PairResults, Verdict};
use sec_base::{NoMemory, Word, Words};
use std::alloc::Global;

/// What is found of two circuits: how many classes they have besides `always`, the results of their pairs, the verdict, and where that is asked for
/// what is found of the cares of the pairs.
#[derive(Drop)]
pub struct Found {
    pub classes: u32,
    pub pairs: PairResults,
    pub verdict: Verdict,
    pub cares: PairCares,
}

/// The outcome of a comparison, and what is found of the cares of its pairs, in order; nothing where that isn't asked for, or where no pair is asked
/// about.
#[derive(Drop)]
pub struct Settled {
    pub outcome: Outcome,
    pub cares: PairCares,
}

/// No pair is asked about, since the limit was met there.
pub fn limit_found(alloc: Global, at: LimitAt) -> Found
    ensures { result ≡ record { classes = 0; pairs = []; verdict = verdict.Limit at; cares = [] } }
{
    Found {
        classes: 0,
        pairs: PairResults::new(alloc),
        verdict: Verdict::Limit(at),
        cares: PairCares::new(alloc),
    }
}

/// What is found of pairs, by the names of inputs and latches.
pub fn named_findings(
    alloc: Global,
    names: &Names,
    findings: EventFindings,
    classes: u32,
    cares: PairCares,
) -> Result<Found, NoMemory>
    requires { CanBeNamed names.now findings.verdict }
    ensures { IfOk result (IsNamedFound names.now findings classes cares) }
{
    let EventFindings { pairs, verdict } = findings;
    let verdict = named_verdict(alloc, names, verdict)?;
    Ok(Found {
        classes,
        pairs,
        verdict,
        cares,
    })
}

/// The outcome of the comparison of these nets, which share so many inputs, under the assumption of this name, with the latches of these names
/// exposed.
pub fn outcome_of(
    a: &Net,
    b: &Net,
    inputs: u32,
    assumed: Option<Word>,
    exposed: Words,
    found: Found,
) -> Settled
    ensures { result ≡ record { outcome = record { inputs = inputs; left_latches = length a.now.latches; right_latches = length b.now.latches; assumed = assumed; exposed = exposed; classes = found.classes; pairs = found.pairs; through = 0; verdict = found.verdict }; cares = found.cares } }
{
    a.keeps();
    b.keeps();
    let Found {
        classes,
        pairs,
        verdict,
        cares,
    } = found;
    let outcome = Outcome {
        inputs,
        left_latches: a.latches().len() as u32,
        right_latches: b.latches().len() as u32,
        assumed,
        exposed,
        classes,
        pairs,
        through: 0,
        verdict,
    };
    Settled { outcome, cares }
}
