//! Two nets searched for a difference under a third.

ghost use Rattle.std.specs.Prelude.{◌≡◌, ◌≤◌, [], ◌∷◌, IfOk};
ghost use Rattle.flat_net.specs.Comparable.{IsComparable};
ghost use Rattle.job_under.specs.Ends.{IsJudgedBy, under_end};
ghost use Rattle.job_under.specs.Report.{searched_text, undecided_text};
ghost use Rattle.sec_jobs.specs.job_search.search_meaning.Judged.{judgement_of, proofs_of};
ghost use Rattle.job_base.specs.declared.finding.Judgement.TheVariants as judgement;

use crate::under_report::{report_searched, report_undecided};
use cycle_search::Searched;
use cycle_under::{SearchUnder, UnderError, search_cycles_under};
use flat_net::Net;
use job_base::{Finding, Judgement, Proofs, Refusal, Stop};
use obligations::outcome::Proof;
use sec_base::{MAX_CONFLICTS, NoMemory, Text, Word};
use sec_jobs::job_search::{judgement_of, proofs_of};
use std::alloc::Global;

/// What is judged of two circuits: with the proofs of the queries that met the limit, and the report.
#[derive(Drop)]
pub struct Judged {
    pub judgement: Judgement,
    pub proofs: Proofs,
    pub text: Text,
}

/// Searches the circuits for a difference under the assumption, where their interfaces match.
pub(crate) fn judge_under(
    alloc: Global,
    a: &Net,
    b: &Net,
    c: &Net,
    cycles: u32,
    conflicts: u32,
) -> Result<Judged, UnderError>
    requires left { IsComparable a.now }
    requires right { IsComparable b.now }
    requires assumed { IsComparable c.now }
    requires cycles { cycles ≤ 1000 }
    requires conflicts { conflicts ≤ MAX_CONFLICTS }
    ensures { IsJudgedBy a.now b.now c.now cycles conflicts result }
{
    match search_cycles_under(alloc, a, b, c, cycles, conflicts)? {
        SearchUnder::Searched(name, searched) => {
            let judged = judged_search(alloc, a, b, &name, searched, cycles, conflicts)?;
            Ok(judged)
        }
        SearchUnder::Undecided(name, proof) => {
            let judged = judged_limit(alloc, a, b, &name, proof, conflicts)?;
            Ok(judged)
        }
    }
}

/// The judgement of what was found.
fn judged_search(
    alloc: Global,
    a: &Net,
    b: &Net,
    name: &Word,
    searched: Searched,
    cycles: u32,
    conflicts: u32,
) -> Result<Judged, NoMemory>
    ensures judgement { IfOk result (λ j. j.judgement ≡ judgement_of searched.verdict) }
    ensures proofs { IfOk result (λ j. j.proofs ≡ proofs_of searched.pairs) }
    ensures text { IfOk result (λ j. j.text ≡ searched_text a.now b.now name.now cycles conflicts searched) }
{
    let text = report_searched(alloc, a, b, name, cycles, conflicts, &searched)?;
    let judgement = judgement_of(&searched.verdict);
    let proofs = proofs_of(alloc, searched)?;
    Ok(Judged {
        judgement,
        proofs,
        text,
    })
}

/// The judgement where it wasn't decided whether some row of inputs meets the assumption.
pub(crate) fn judged_limit(
    alloc: Global,
    a: &Net,
    b: &Net,
    name: &Word,
    proof: Proof,
    conflicts: u32,
) -> Result<Judged, NoMemory>
    ensures judgement { IfOk result (λ j. j.judgement ≡ judgement.Limit) }
    ensures proofs { IfOk result (λ j. j.proofs ≡ proof ∷ []) }
    ensures text { IfOk result (λ j. j.text ≡ undecided_text a.now b.now name.now conflicts) }
{
    let text = report_undecided(alloc, a, b, name, conflicts)?;
    let mut proofs = Proofs::new(alloc);
    proofs.push(proof)?;
    Ok(Judged {
        judgement: Judgement::Limit,
        proofs,
        text,
    })
}

/// What is found by the judgement, or by its refusal.
pub(crate) fn under_end(judged: Result<Judged, UnderError>) -> Result<Finding, Stop>
    ensures { result ≡ under_end judged }
{
    match judged {
        Ok(judged) => {
            let Judged {
                judgement,
                proofs,
                text,
            } = judged;
            Ok(Finding::Judged(judgement, proofs, text))
        }
        Err(UnderError::Interface(name)) => Ok(Finding::Refused(Refusal::Interface(name))),
        Err(UnderError::Assume(fault)) => Ok(Finding::Refused(Refusal::Assume(fault))),
        Err(UnderError::Vacuous(_)) => Ok(Finding::Refused(Refusal::Vacuous)),
        Err(UnderError::TooLarge(side)) => Ok(Finding::Refused(Refusal::TooLarge(side))),
        Err(UnderError::NoMemory) => Err(Stop::NoMemory),
    }
}
