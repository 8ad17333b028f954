//! Two nets searched for a difference behind the rows of a stimulus.

ghost use Rattle.std.specs.Prelude.{◌≡◌, ◌≤◌, ◌++◌, IfOk, OnOk, option_to_list};
ghost use Rattle.flat_net.specs.Comparable.{IsComparable};
ghost use Rattle.job_after.specs.Ends.{FitsAfter, IsJudgedBy, after_end};
ghost use Rattle.job_after.specs.Judged.{judgement_of, proofs_of};

use crate::after_report::{After, report};
use crate::fault::AfterFault;
use crate::last::last_cycle;
use crate::searching::Start;
use crate::shown::shown_of;
use base_tables::NameTable;
use circuit_report::sim_report::Misfit;
use cycle_search::{SearchVerdict, Searched, search_cycles};
use flat_net::Net;
use job_base::{Finding, Judgement, Proofs, Refusal, Stop};
use job_circuit::replay::ReplayError;
use job_circuit::replay::replay_header::opened_by;
use obligations::PairResults;
use obligations::outcome::{PairResult, Witness};
use restart::begin;
use sec_base::{MAX_CONFLICTS, NoMemory, Text};
use sec_setup::ports::name_tables::{table_of_names, word_of};
use std::alloc::Global;
use witness_report::Stimulus;

/// What is judged of two circuits: with the proofs of the queries that met the limit, and the report.
#[derive(Drop)]
pub struct Judged {
    pub judgement: Judgement,
    pub proofs: Proofs,
    pub text: Text,
}

/// Compares the circuits behind the rows, where the stimulus fits both and their interfaces match, up to the wanted cycle, or without one in
/// all cycles, where no latch lies on a cycle.
pub(crate) fn judge_after(
    alloc: Global,
    mut a: Net,
    mut b: Net,
    stimulus: &Stimulus,
    wanted: Option<u32>,
    conflicts: u32,
) -> Result<Judged, AfterFault>
    requires left { IsComparable a }
    requires right { IsComparable b }
    requires conflicts { conflicts ≤ MAX_CONFLICTS }
    ensures { IsJudgedBy a b stimulus.now.names stimulus.now.rows wanted conflicts result }
{
    let header = table_of_names(alloc, &stimulus.names)?;
    match_header(alloc, &a, &b, &header)?;
    let left = begin(alloc, &mut a, &header, &stimulus.rows)?;
    let right = begin(alloc, &mut b, &header, &stimulus.rows)?;
    let cycles = last_cycle(alloc, &a, &b, wanted)?;
    let searched = search_cycles(alloc, &a, &b, cycles, conflicts)?;
    let start = Start {
        header: &header,
        stimulus,
        left: &left,
        right: &right,
        cycles,
        conflicts,
    };
    let shown = shown_of(alloc, &mut a, &mut b, &start, &start, &searched)?;
    let after = After {
        rows: stimulus.rows.len() as u64,
        left: &left,
        right: &right,
        shown: &shown,
    };
    let text = report(alloc, &a, &b, cycles, conflicts, &after, &searched)?;
    let judgement = judgement_of(&searched.verdict, &shown);
    let proofs = proofs_of(alloc, searched)?;
    Ok(Judged {
        judgement,
        proofs,
        text,
    })
}

/// Refuses the first name of the stimulus that is no input of a circuit, or an input of both that it lacks.
pub fn match_header(alloc: Global, a: &Net, b: &Net, header: &NameTable) -> Result<(), ReplayError>
    ensures { FitsAfter a.now b.now header.now result }
{
    let opened = opened_by(alloc, a, b, header)?;
    if opened.len() > 0 {
        return Err(ReplayError::Unknown(word_of(alloc, opened.name(0))?));
    }
    Ok(())
}

/// The judgement of what was found. A difference that isn't shown is none.
pub fn judgement_of(verdict: &SearchVerdict, shown: &Option<Witness>) -> Judgement
    ensures { result ≡ judgement_of verdict.now shown.now }
{
    if shown.is_some() {
        return Judgement::Different;
    }
    match verdict {
        SearchVerdict::Equal => Judgement::Equal,
        SearchVerdict::NoDifference(_) => Judgement::NotShown,
        SearchVerdict::Different(_) => Judgement::NotShown,
        SearchVerdict::Limit(_) => Judgement::Limit,
    }
}

/// The proofs of the pairs that met the limit, in their order.
pub fn proofs_of(alloc: Global, searched: Searched) -> Result<Proofs, NoMemory>
    ensures { IfOk result (λ proofs. proofs ≡ proofs_of searched.pairs) }
{
    let Searched { pairs, .. } = searched;
    pair_proofs(alloc, pairs)
}

/// The proofs of these pairs, in their order.
fn pair_proofs(alloc: Global, pairs: PairResults) -> Result<Proofs, NoMemory>
    ensures { IfOk result (λ proofs. proofs ≡ proofs_of pairs) }
{
    let mut proofs = Proofs::new(alloc);
    for pair in pairs.into_vec() {
        keep_proof(&mut proofs, pair)?;
    }
    Ok(proofs)
}

/// Puts the pair's proof behind the others, where it has one.
fn keep_proof(proofs: &mut Proofs, pair: PairResult) -> Result<(), NoMemory>
    ensures { OnOk result (proofs.new ≡ proofs.old ++ option_to_list pair.proof) }
{
    match pair.into_proof() {
        Some(proof) => proofs.push(proof),
        None => Ok(()),
    }
}

/// What is found by the judgement, or by its refusal.
pub fn after_end(judged: Result<Judged, AfterFault>) -> Result<Finding, Stop>
    ensures { result ≡ after_end judged }
{
    match judged {
        Ok(judged) => {
            let Judged {
                judgement,
                proofs,
                text,
            } = judged;
            Ok(Finding::Judged(judgement, proofs, text))
        }
        Err(AfterFault::Unknown(name)) => {
            Ok(Finding::Refused(Refusal::Misfit(Misfit::Unknown(name))))
        }
        Err(AfterFault::Missing(name)) => {
            Ok(Finding::Refused(Refusal::Misfit(Misfit::Missing(name))))
        }
        Err(AfterFault::Interface(name)) => Ok(Finding::Refused(Refusal::Interface(name))),
        Err(AfterFault::Cyclic(side, names)) => Ok(Finding::Cyclic(side, names)),
        Err(AfterFault::TooLarge(side)) => Ok(Finding::Refused(Refusal::TooLarge(side))),
        Err(AfterFault::NoMemory) => Err(Stop::NoMemory),
    }
}
