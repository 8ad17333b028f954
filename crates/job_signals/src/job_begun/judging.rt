//! Two nets compared by an induction over cycles behind the rows of a stimulus.

ghost use Rattle.std.specs.Prelude.{◌≡◌, ◌≤◌, ◌++◌, length, IfOk};
ghost use Rattle.flat_net.specs.Comparable.{IsComparable};
ghost use Rattle.job_after.specs.Report.{begun_text};
ghost use Rattle.job_signals.specs.job_begun.Ends.{by_ties, by_blocks, IsToldBy, IsJudgedBy};

use crate::judging;
use flat_net::Net;
use job_after::{AfterFault, Judged, match_header, put_begun};
use job_base::Proofs;
use restart::begin;
use sec_base::{MAX_CONFLICTS, NoMemory, Seq, Text, put};
use sec_jobs::job_induct;
use sec_setup::ports::name_tables::table_of_names;
use std::alloc::Global;
use witness_report::Stimulus;

/// Compares the circuits as they begin behind the rows, where the stimulus fits both and their interfaces match.
pub(crate) fn judge_behind(
    alloc: Global,
    mut a: Net,
    mut b: Net,
    stimulus: &Stimulus,
    signals: bool,
    conflicts: u32,
) -> Result<Judged, AfterFault>
    requires left { IsComparable a }
    requires right { IsComparable b }
    requires conflicts { conflicts ≤ MAX_CONFLICTS }
    ensures { IsJudgedBy signals conflicts a b stimulus.now.names stimulus.now.rows result }
{
    let header = table_of_names(alloc, &stimulus.names)?;
    match_header(alloc, &a, &b, &header)?;
    let left = begin(alloc, &mut a, &header, &stimulus.rows)?;
    let right = begin(alloc, &mut b, &header, &stimulus.rows)?;
    let judged = judge_begun(alloc, &a, &b, signals, conflicts)?;
    let rows = stimulus.rows.len() as u64;
    let text = text_behind(alloc, &a, &b, rows, &left, &right, &judged.text)?;
    let Judged {
        judgement,
        proofs,
        ..
    } = judged;
    Ok(Judged {
        judgement,
        proofs,
        text,
    })
}

/// Compares two nets from their initial values: by ties of their signals, or by blocks of their latches.
fn judge_begun(
    alloc: Global,
    a: &Net,
    b: &Net,
    signals: bool,
    conflicts: u32,
) -> Result<Judged, AfterFault>
    requires left { IsComparable a.now }
    requires right { IsComparable b.now }
    requires conflicts { conflicts ≤ MAX_CONFLICTS }
    ensures { IsToldBy signals conflicts a.now b.now result }
{
    if signals {
        return by_ties(alloc, judging::judge_nets(alloc, a, b, conflicts));
    }
    by_blocks(job_induct::judge_nets(alloc, a, b, conflicts))
}

/// What is judged by ties. No query's limit is told, so there are no proofs.
fn by_ties(
    alloc: Global,
    judged: Result<judging::Judged, judging::JudgeError>,
) -> Result<Judged, AfterFault>
    ensures { result ≡ by_ties judged }
{
    match judged {
        Ok(judged) => {
            let judging::Judged { judgement, text } = judged;
            Ok(Judged {
                judgement,
                proofs: Proofs::new(alloc),
                text,
            })
        }
        Err(judging::JudgeError::Interface(name)) => Err(AfterFault::Interface(name)),
        Err(judging::JudgeError::TooLarge(side)) => Err(AfterFault::TooLarge(side)),
        Err(judging::JudgeError::NoMemory) => Err(AfterFault::NoMemory),
    }
}

/// What is judged by blocks.
fn by_blocks(
    judged: Result<job_induct::Judged, job_induct::JudgeError>,
) -> Result<Judged, AfterFault>
    ensures { result ≡ by_blocks judged }
{
    match judged {
        Ok(judged) => {
            let job_induct::Judged {
                judgement,
                proofs,
                text,
            } = judged;
            Ok(Judged {
                judgement,
                proofs,
                text,
            })
        }
        Err(job_induct::JudgeError::Interface(name)) => Err(AfterFault::Interface(name)),
        Err(job_induct::JudgeError::TooLarge(side)) => Err(AfterFault::TooLarge(side)),
        Err(job_induct::JudgeError::NoMemory) => Err(AfterFault::NoMemory),
    }
}

/// What is told of the comparison, behind what is known of both nets.
pub fn text_behind(
    alloc: Global,
    a: &Net,
    b: &Net,
    rows: u64,
    left: &[Option<bool>],
    right: &[Option<bool>],
    told: &Text,
) -> Result<Text, NoMemory>
    requires left { length left.now ≡ length a.now.latches }
    requires right { length right.now ≡ length b.now.latches }
    ensures { IfOk result (λ text. text ≡ begun_text a.now b.now rows left.now right.now ++ told.now) }
{
    let mut text = Vec::new(alloc);
    put_begun(alloc, &mut text, a, b, rows, left, right)?;
    put(&mut text, told.as_slice())?;
    Ok(Seq::from_vec(text))
}
