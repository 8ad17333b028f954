//! Two nets searched for a difference behind the rows of a stimulus, under a third.

ghost use Rattle.std.specs.Prelude.{◌≡◌, ◌≤◌, [], ◌∷◌, length, IfOk};
ghost use Rattle.flat_net.specs.Comparable.{IsComparable};
ghost use Rattle.restart.specs.Behind.{begun};
ghost use Rattle.cycle_under.specs.Searches.{AreSearchedUnder};
ghost use Rattle.job_base.specs.declared.finding.Judgement.TheVariants as judgement;
ghost use Rattle.job_after_under.specs.Ends.{IsJudgedBy, IsTold, fault_end, header_end, search_end};
ghost use Rattle.job_after_under.specs.Report.{undecided_behind};

use crate::fault::Fault;
use crate::found_report::{report, report_undecided};
use crate::shown::AssumedSearch;
use circuit_report::sim_report::Misfit;
use cycle_search::Searched;
use cycle_under::{SearchUnder, UnderError, search_cycles_under};
use flat_net::Net;
use job_after::{Judged, Start, judgement_of, match_header, proofs_of, shown_of};
use job_base::{Finding, Judgement, Proofs, Refusal, Stop};
use job_circuit::replay::ReplayError;
use obligations::outcome::Proof;
use restart::begin;
use sec_base::{MAX_CONFLICTS, NoMemory, Word};
use sec_setup::ports::name_tables::table_of_names;
use std::alloc::Global;
use witness_report::Stimulus;

/// Compares the circuits behind the rows under the assumption, where the stimulus fits both and their interfaces match.
pub(crate) fn judge(
    alloc: Global,
    mut a: Net,
    mut b: Net,
    c: &Net,
    stimulus: &Stimulus,
    cycles: u32,
    conflicts: u32,
) -> Result<Judged, Fault>
    requires left { IsComparable a }
    requires right { IsComparable b }
    requires assumed { IsComparable c.now }
    requires cycles { cycles ≤ 1000 }
    requires conflicts { conflicts ≤ MAX_CONFLICTS }
    ensures { IsJudgedBy a b c.now stimulus.now.names stimulus.now.rows cycles conflicts result }
{
    let header = table_of_names(alloc, &stimulus.names)?;
    match_header(alloc, &a, &b, &header)?;
    let left = begin(alloc, &mut a, &header, &stimulus.rows)?;
    let right = begin(alloc, &mut b, &header, &stimulus.rows)?;
    let start = Start {
        header: &header,
        stimulus,
        left: &left,
        right: &right,
        cycles,
        conflicts,
    };
    match search_cycles_under(alloc, &a, &b, c, cycles, conflicts)? {
        SearchUnder::Searched(name, searched) => {
            let judged = judged_search(alloc, &mut a, &mut b, c, &start, &name, searched)?;
            Ok(judged)
        }
        SearchUnder::Undecided(name, proof) => {
            let judged = judged_limit(alloc, &a, &b, &start, &name, proof)?;
            Ok(judged)
        }
    }
}

/// The judgement of what was found of the circuits as they begin behind the rows.
fn judged_search(
    alloc: Global,
    a: &mut Net,
    b: &mut Net,
    c: &Net,
    start: &Start<'_>,
    name: &Word,
    searched: Searched,
) -> Result<Judged, NoMemory>
    requires left { IsComparable a.old }
    requires right { IsComparable b.old }
    requires assumed { IsComparable c.now }
    requires limits { (start.now.conflicts ≤ MAX_CONFLICTS) × (start.now.cycles ≤ 1000) }
    requires header { start.now.header.now ≡ start.now.stimulus.now.names }
    requires known { (length start.now.left.now ≡ length a.old.latches) × (length start.now.right.now ≡ length b.old.latches) }
    requires begun { (begun a.old start.now.left.now ≡ a.old) × (begun b.old start.now.right.now ≡ b.old) }
    requires searched { AreSearchedUnder a.old b.old c.now start.now.cycles start.now.conflicts searched }
    ensures { IfOk result (IsTold a.old b.old c.now start.now.stimulus.now.names start.now.stimulus.now.rows start.now.left.now start.now.right.now start.now.cycles start.now.conflicts name.now searched) }
{
    let search = AssumedSearch {
        assumed: c,
        cycles: start.cycles,
        conflicts: start.conflicts,
    };
    let shown = shown_of(alloc, a, b, &search, start, &searched)?;
    let text = report(alloc, a, b, name, start, &shown, &searched)?;
    let judgement = judgement_of(&searched.verdict, &shown);
    let proofs = proofs_of(alloc, searched)?;
    Ok(Judged {
        judgement,
        proofs,
        text,
    })
}

/// The judgement where it wasn't decided whether some row of inputs meets the assumption.
fn judged_limit(
    alloc: Global,
    a: &Net,
    b: &Net,
    start: &Start<'_>,
    name: &Word,
    proof: Proof,
) -> Result<Judged, NoMemory>
    requires left { length start.now.left.now ≡ length a.now.latches }
    requires right { length start.now.right.now ≡ length b.now.latches }
    ensures judgement { IfOk result (λ j. j.judgement ≡ judgement.Limit) }
    ensures proofs { IfOk result (λ j. j.proofs ≡ proof ∷ []) }
    ensures text { IfOk result (λ j. j.text ≡ undecided_behind a.now b.now name.now start.now.conflicts (length start.now.stimulus.now.rows) start.now.left.now start.now.right.now) }
{
    let text = report_undecided(alloc, a, b, name, start)?;
    let mut proofs = Proofs::new(alloc);
    proofs.push(proof)?;
    Ok(Judged {
        judgement: Judgement::Limit,
        proofs,
        text,
    })
}

/// What is found by the judgement, or by its refusal.
pub(crate) fn fault_end(judged: Result<Judged, Fault>) -> Result<Finding, Stop>
    ensures { result ≡ fault_end judged }
{
    match judged {
        Ok(judged) => {
            let Judged {
                judgement,
                proofs,
                text,
            } = judged;
            Ok(Finding::Judged(judgement, proofs, text))
        }
        Err(Fault::Header(error)) => header_end(error),
        Err(Fault::Search(error)) => search_end(error),
        Err(Fault::NoMemory) => Err(Stop::NoMemory),
    }
}

/// What is found where the stimulus doesn't fit.
fn header_end(error: ReplayError) -> Result<Finding, Stop>
    ensures { result ≡ header_end error }
{
    match error {
        ReplayError::Unknown(name) => Ok(Finding::Refused(Refusal::Misfit(Misfit::Unknown(name)))),
        ReplayError::Missing(name) => Ok(Finding::Refused(Refusal::Misfit(Misfit::Missing(name)))),
        ReplayError::NoMemory => Err(Stop::NoMemory),
    }
}

/// What is found where the search refuses.
fn search_end(error: UnderError) -> Result<Finding, Stop>
    ensures { result ≡ search_end error }
{
    match error {
        UnderError::Interface(name) => Ok(Finding::Refused(Refusal::Interface(name))),
        UnderError::Assume(fault) => Ok(Finding::Refused(Refusal::Assume(fault))),
        UnderError::Vacuous(_) => Ok(Finding::Refused(Refusal::Vacuous)),
        UnderError::TooLarge(side) => Ok(Finding::Refused(Refusal::TooLarge(side))),
        UnderError::NoMemory => Err(Stop::NoMemory),
    }
}
