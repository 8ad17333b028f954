//! The report.

ghost use Rattle.std.specs.Prelude.{◌≡◌, length, IfOk};
ghost use Rattle.job_after_under.specs.Report.{behind_text, undecided_behind};

use cycle_search::Searched;
use flat_net::Net;
use job_after::{Start, put_after_verdict, put_begun};
use job_under::{put_undecided, put_under_front};
use obligations::outcome::Witness;
use sec_base::{NoMemory, Seq, Text, Word};
use std::alloc::Global;

/// The report: how many rows the stimulus has; for each circuit how many latches aren't known behind them, with the first one's name; and
/// what a search under an assumption tells. A difference is told by its sequence, which begins with the rows, where that makes the pair differ
/// whatever both circuits power up with; else the pair and its cycle alone are told.
pub(crate) fn report(
    alloc: Global,
    a: &Net,
    b: &Net,
    name: &Word,
    start: &Start<'_>,
    shown: &Option<Witness>,
    searched: &Searched,
) -> Result<Text, NoMemory>
    requires left { length start.now.left.now ≡ length a.now.latches }
    requires right { length start.now.right.now ≡ length b.now.latches }
    ensures { IfOk result (λ text. text ≡ behind_text a.now b.now name.now start.now.cycles start.now.conflicts (length start.now.stimulus.now.rows) start.now.left.now start.now.right.now shown.now searched.now) }
{
    let mut text = Vec::new(alloc);
    let rows = start.stimulus.rows.len() as u64;
    put_begun(alloc, &mut text, a, b, rows, start.left, start.right)?;
    put_under_front(alloc, &mut text, a, b, name, start.cycles, searched)?;
    put_after_verdict(alloc, &mut text, start.conflicts, searched, shown)?;
    Ok(Seq::from_vec(text))
}

/// The report where it wasn't decided whether some row of inputs meets the assumption.
pub(crate) fn report_undecided(
    alloc: Global,
    a: &Net,
    b: &Net,
    name: &Word,
    start: &Start<'_>,
) -> Result<Text, NoMemory>
    requires left { length start.now.left.now ≡ length a.now.latches }
    requires right { length start.now.right.now ≡ length b.now.latches }
    ensures { IfOk result (λ text. text ≡ undecided_behind a.now b.now name.now start.now.conflicts (length start.now.stimulus.now.rows) start.now.left.now start.now.right.now) }
{
    let mut text = Vec::new(alloc);
    let rows = start.stimulus.rows.len() as u64;
    put_begun(alloc, &mut text, a, b, rows, start.left, start.right)?;
    put_undecided(alloc, &mut text, a, b, name, start.conflicts)?;
    Ok(Seq::from_vec(text))
}
