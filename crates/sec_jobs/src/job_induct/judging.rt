//! Two nets compared by blocks of latches.

ghost use Rattle.std.specs.Prelude.{◌≡◌, ◌≤◌, [], ◌∷◌, ◌++◌, IfOk, OnOk, option_to_list};
ghost use Rattle.std.specs.List.{filter_map};
ghost use Rattle.flat_net.specs.Comparable.{IsComparable};
ghost use Rattle.induct.specs.induct_report.Report.{induct_text};
ghost use Rattle.sec_jobs.specs.job_induct.induct_meaning.Judged.{judgement_of, proofs_of};
ghost use Rattle.sec_jobs.specs.job_induct.Ends.{IsMismatch, mismatch_of, IsJudgedBy, judged_end};

use flat_net::Net;
use induct::induct_report::{
    InductError, InductPair, InductPairs, InductVerdict, Induction, induct, report,
};
use job_base::{Finding, Judgement, Proofs, Refusal, Stop};
use pair_decide::Proof;
use sec_base::{MAX_CONFLICTS, NoMemory, Side, Text, Word};
use sec_setup::{SetupError, interface};
use std::alloc::Global;

/// What is judged of two circuits: with the proofs of the queries that met the limit, and the report.
#[derive(Drop)]
pub struct Judged {
    pub judgement: Judgement,
    pub proofs: Proofs,
    pub text: Text,
}

/// Why two circuits aren't judged.
#[derive(Drop)]
pub enum JudgeError {
    /// The first name that one circuit has and the other lacks.
    Interface(Word),
    /// All inputs, latches and gates of this circuit weigh too much together; A comes first.
    TooLarge(Side),
    /// Memory was wanted and couldn't be had.
    NoMemory,
}

impl From<NoMemory> for JudgeError {
    ghost use Rattle.std.specs.Prelude.{◌≡◌};
    ghost use Rattle.sec_jobs.specs.declared.job_induct.judging.JudgeError.TheVariants.{NoMemory};

    ghost from_gives = { λ _ e. e ≡ NoMemory };

    fn from(_error: NoMemory) -> JudgeError {
        JudgeError::NoMemory
    }
}

impl From<InductError> for JudgeError {
    ghost use Rattle.std.specs.Prelude.{◌≡◌};
    ghost use Rattle.sec_jobs.specs.job_induct.Ends.{refusal_of};

    ghost from_gives = { λ s e. e ≡ refusal_of s };

    fn from(error: InductError) -> JudgeError {
        match error {
            InductError::TooLarge(side) => JudgeError::TooLarge(side),
            InductError::NoMemory => JudgeError::NoMemory,
        }
    }
}

/// Compares the circuits, where their interfaces match.
pub fn judge_nets(alloc: Global, a: &Net, b: &Net, conflicts: u32) -> Result<Judged, JudgeError>
    requires left { IsComparable a.now }
    requires right { IsComparable b.now }
    requires conflicts { conflicts ≤ MAX_CONFLICTS }
    ensures { IsJudgedBy a.now b.now conflicts result }
{
    a.keeps();
    b.keeps();
    let orders = match interface(alloc, a, b) {
        Ok(orders) => orders,
        Err(error) => return Err(mismatch_of(error)),
    };
    let made = induct(alloc, a, b, &orders, conflicts)?;
    let judged = judged_of(alloc, a, b, conflicts, made)?;
    Ok(judged)
}

/// The refusal of interfaces that don't match.
fn mismatch_of(error: SetupError) -> JudgeError
    requires { IsMismatch error }
    ensures { result ≡ mismatch_of error }
{
    match error {
        SetupError::Interface(name) => JudgeError::Interface(name),
        SetupError::NoMemory => JudgeError::NoMemory,
        SetupError::Cyclic(_, _) => unreachable!(),
        SetupError::Unpaired(_, _) => unreachable!(),
    }
}

/// What is told of what was made.
fn judged_of(
    alloc: Global,
    a: &Net,
    b: &Net,
    conflicts: u32,
    made: Induction,
) -> Result<Judged, NoMemory>
    ensures judgement { IfOk result (λ j. j.judgement ≡ judgement_of made.verdict) }
    ensures proofs { IfOk result (λ j. j.proofs ≡ proofs_of made) }
    ensures text { IfOk result (λ j. j.text ≡ induct_text a.now b.now conflicts made) }
{
    let text = report(alloc, a, b, conflicts, &made)?;
    let judgement = judgement_of(&made.verdict);
    let proofs = proofs_of(alloc, made)?;
    Ok(Judged {
        judgement,
        proofs,
        text,
    })
}

fn judgement_of(verdict: &InductVerdict) -> Judgement
    ensures { result ≡ judgement_of verdict.now }
{
    match verdict {
        InductVerdict::Equal => Judgement::Equal,
        InductVerdict::NotShown { .. } => Judgement::NotShown,
        InductVerdict::Limit { .. } => Judgement::Limit,
        InductVerdict::SplitLimit { .. } => Judgement::Limit,
    }
}

/// The proofs of the queries that met the limit: those of outputs in their order, or that of two latches.
fn proofs_of(alloc: Global, made: Induction) -> Result<Proofs, NoMemory>
    ensures { IfOk result (λ proofs. proofs ≡ proofs_of made) }
{
    let Induction { pairs, verdict, .. } = made;
    match verdict {
        InductVerdict::SplitLimit { proof, .. } => one_proof(alloc, proof),
        InductVerdict::Equal => pair_proofs(alloc, pairs),
        InductVerdict::NotShown { .. } => pair_proofs(alloc, pairs),
        InductVerdict::Limit { .. } => pair_proofs(alloc, pairs),
    }
}

fn one_proof(alloc: Global, proof: Proof) -> Result<Proofs, NoMemory>
    ensures { IfOk result (λ proofs. proofs ≡ proof ∷ []) }
{
    let mut proofs = Proofs::new(alloc);
    proofs.push(proof)?;
    Ok(proofs)
}

/// The proofs of the outputs whose queries met the limit, in their order.
fn pair_proofs(alloc: Global, pairs: InductPairs) -> Result<Proofs, NoMemory>
    ensures { IfOk result (λ proofs. proofs ≡ filter_map (λ pair. pair.proof) pairs) }
{
    let mut proofs = Proofs::new(alloc);
    for pair in pairs.into_vec() {
        keep_proof(&mut proofs, pair)?;
    }
    Ok(proofs)
}

/// Puts the output's proof behind the others, where it has one.
fn keep_proof(proofs: &mut Proofs, pair: InductPair) -> Result<(), NoMemory>
    ensures { OnOk result (proofs.new ≡ proofs.old ++ option_to_list pair.proof) }
{
    let InductPair { proof, .. } = pair;
    match proof {
        Some(proof) => proofs.push(proof),
        None => Ok(()),
    }
}

/// What is found by the judgement, or by its refusal.
pub(crate) fn judged_end(judged: Result<Judged, JudgeError>) -> Result<Finding, Stop>
    ensures { result ≡ judged_end judged }
{
    match judged {
        Ok(judged) => {
            let Judged {
                judgement,
                proofs,
                text,
            } = judged;
            Ok(Finding::Judged(judgement, proofs, text))
        }
        Err(JudgeError::Interface(name)) => Ok(Finding::Refused(Refusal::Interface(name))),
        Err(JudgeError::TooLarge(side)) => Ok(Finding::Refused(Refusal::TooLarge(side))),
        Err(JudgeError::NoMemory) => Err(Stop::NoMemory),
    }
}
