//! Two nets compared by ties of signals.

ghost use Rattle.std.specs.Prelude.{◌≡◌, IfOk};
ghost use Rattle.flat_net.specs.Comparable.{IsComparable};
ghost use Rattle.signal_induct.specs.Tied.{first_apart};
ghost use Rattle.signal_induct.specs.signals_report.Report.{signals_text};
ghost use Rattle.job_signals.specs.Judged.{judgement_of};
ghost use Rattle.job_signals.specs.Ends.{IsMismatch, mismatch_of, IsJudgedBy, judged_end};

use flat_net::Net;
use induct::InductError;
use job_base::{Finding, Judgement, Proofs, Refusal, Stop};
use sec_base::{NoMemory, Side, Text, Word};
use sec_setup::{SetupError, interface};
use signal_induct::signals_report::report;
use signal_induct::{SignalInduction, TiedPair, first_apart, induct_signals};
use std::alloc::Global;

/// What is judged of two circuits, and the report.
#[derive(Drop)]
pub struct Judged {
    pub judgement: Judgement,
    pub text: Text,
}

/// Why two circuits aren't judged.
#[derive(Drop)]
pub enum JudgeError {
    /// The first name that one circuit has and the other lacks.
    Interface(Word),
    /// All inputs, latches and gates of this circuit weigh too much together; A comes first.
    TooLarge(Side),
    /// Memory was wanted and couldn't be had.
    NoMemory,
}

impl From<NoMemory> for JudgeError {
    ghost use Rattle.std.specs.Prelude.{◌≡◌};
    ghost use Rattle.job_signals.specs.declared.judging.JudgeError.TheVariants.{NoMemory};

    ghost from_gives = { λ _ e. e ≡ NoMemory };

    fn from(_error: NoMemory) -> JudgeError {
        JudgeError::NoMemory
    }
}

impl From<InductError> for JudgeError {
    ghost use Rattle.std.specs.Prelude.{◌≡◌};
    ghost use Rattle.job_signals.specs.Ends.{refusal_of};

    ghost from_gives = { λ s e. e ≡ refusal_of s };

    fn from(error: InductError) -> JudgeError {
        match error {
            InductError::TooLarge(side) => JudgeError::TooLarge(side),
            InductError::NoMemory => JudgeError::NoMemory,
        }
    }
}

/// Compares the circuits, where their interfaces match.
pub fn judge_nets(alloc: Global, a: &Net, b: &Net, conflicts: u32) -> Result<Judged, JudgeError>
    requires left { IsComparable a.now }
    requires right { IsComparable b.now }
    ensures { IsJudgedBy a.now b.now result }
{
    let orders = match interface(alloc, a, b) {
        Ok(orders) => orders,
        Err(error) => return Err(mismatch_of(error)),
    };
    let made = induct_signals(alloc, a, b, &orders, conflicts)?;
    let judged = judged_of(alloc, a, b, &made)?;
    Ok(judged)
}

/// The refusal of interfaces that don't match.
fn mismatch_of(error: SetupError) -> JudgeError
    requires { IsMismatch error }
    ensures { result ≡ mismatch_of error }
{
    match error {
        SetupError::Interface(name) => JudgeError::Interface(name),
        SetupError::NoMemory => JudgeError::NoMemory,
        SetupError::Cyclic(_, _) => unreachable!(),
        SetupError::Unpaired(_, _) => unreachable!(),
    }
}

/// What is told of what was made.
fn judged_of(alloc: Global, a: &Net, b: &Net, made: &SignalInduction) -> Result<Judged, NoMemory>
    ensures judgement { IfOk result (λ j. j.judgement ≡ judgement_of (first_apart made.now.pairs)) }
    ensures text { IfOk result (λ j. j.text ≡ signals_text a.now b.now made.now) }
{
    let text = report(alloc, a, b, made)?;
    let judgement = judgement_of(made.pairs.as_slice());
    Ok(Judged { judgement, text })
}

fn judgement_of(pairs: &[TiedPair]) -> Judgement
    ensures { result ≡ judgement_of (first_apart pairs.now) }
{
    match first_apart(pairs) {
        None => Judgement::Equal,
        Some(_) => Judgement::NotShown,
    }
}

/// What is found by the judgement, or by its refusal. No query's limit is told, so there are no proofs.
pub(crate) fn judged_end(alloc: Global, judged: Result<Judged, JudgeError>) -> Result<Finding, Stop>
    ensures { result ≡ judged_end judged }
{
    match judged {
        Ok(judged) => {
            let Judged { judgement, text } = judged;
            Ok(Finding::Judged(judgement, Proofs::new(alloc), text))
        }
        Err(JudgeError::Interface(name)) => Ok(Finding::Refused(Refusal::Interface(name))),
        Err(JudgeError::TooLarge(side)) => Ok(Finding::Refused(Refusal::TooLarge(side))),
        Err(JudgeError::NoMemory) => Err(Stop::NoMemory),
    }
}
