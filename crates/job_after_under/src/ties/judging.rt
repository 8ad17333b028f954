//! Two nets compared by ties of signals behind the rows of a stimulus, under a third.

ghost use Rattle.std.specs.Prelude.{◌≡◌, ◌≤◌};
ghost use Rattle.flat_net.specs.Comparable.{IsComparable};
ghost use Rattle.job_after_under.specs.ties.Ends.{AreJudgedBy};

use crate::fault::Fault;
use flat_net::Net;
use job_after::{Judged, match_header};
use job_under::ties::{judge_ties, text_behind};
use restart::begin;
use sec_base::MAX_CONFLICTS;
use sec_setup::ports::name_tables::table_of_names;
use std::alloc::Global;
use witness_report::Stimulus;

/// Compares the circuits as they begin behind the rows, where the stimulus fits both. It refuses then what the comparison of the nets that begin
/// does, and where it isn't decided whether some row of inputs meets `c`, nothing is compared.
pub(crate) fn judge_behind(
    alloc: Global,
    mut a: Net,
    mut b: Net,
    c: &Net,
    stimulus: &Stimulus,
    conflicts: u32,
) -> Result<Judged, Fault>
    requires left { IsComparable a }
    requires right { IsComparable b }
    requires assumed { IsComparable c.now }
    requires conflicts { conflicts ≤ MAX_CONFLICTS }
    ensures { AreJudgedBy a b c.now stimulus.now.names stimulus.now.rows conflicts result }
{
    let header = table_of_names(alloc, &stimulus.names)?;
    match_header(alloc, &a, &b, &header)?;
    let left = begin(alloc, &mut a, &header, &stimulus.rows)?;
    let right = begin(alloc, &mut b, &header, &stimulus.rows)?;
    let judged = judge_ties(alloc, &a, &b, c, conflicts)?;
    let rows = stimulus.rows.len() as u64;
    let text = text_behind(alloc, &a, &b, rows, &left, &right, &judged.text)?;
    let job_under::Judged {
        judgement,
        proofs,
        ..
    } = judged;
    Ok(Judged {
        judgement,
        proofs,
        text,
    })
}
