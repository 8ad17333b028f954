//! The report of a comparison by ties of signals under an assumption.

ghost use Rattle.std.specs.Prelude.{◌≡◌, ◌++◌, IfOk};
ghost use Rattle.job_under.specs.ties.Judged.{ties_text};

use flat_net::Net;
use sec_base::{NoMemory, Seq, Text, Word, put};
use signal_induct::SignalInduction;
use signal_induct::signals_report::report;
use std::alloc::Global;

/// The report: the name of the assumption's output, and behind it what is told of the ties.
pub(crate) fn report_ties(
    alloc: Global,
    a: &Net,
    b: &Net,
    name: &Word,
    made: &SignalInduction,
) -> Result<Text, NoMemory>
    ensures { IfOk result (λ text. text ≡ ties_text name.now a.now b.now made.now) }
{
    let told = report(alloc, a, b, made)?;
    let mut text = Vec::new(alloc);
    put(&mut text, b"assume ")?;
    put(&mut text, name.as_slice())?;
    put(&mut text, b"\n")?;
    put(&mut text, told.as_slice())?;
    Ok(Seq::from_vec(text))
}
