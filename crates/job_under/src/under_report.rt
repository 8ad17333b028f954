//! The report of a search under an assumption.

ghost use Rattle.std.specs.Prelude.{◌≡◌, ◌<◌, ◌++◌, length, codes, IfOk, OnOk};
ghost use Rattle.job_under.specs.Report.{head_text, cycles_text, under_front, over_line, stop_text, searched_text, undecided_text};

use cycle_search::search_report::{put_count_line, put_counts, put_pairs, put_verdict};
use cycle_search::{SearchVerdict, Searched};
use flat_net::Net;
use sec_base::{NoMemory, Seq, Text, Word, put, put_number};
use sec_setup::ports::inputs_beside;
use std::alloc::Global;

/// The report: how many inputs both circuits share and how many latches each has; that runs begin with the latches' initial values; the name
/// of the assumption's output; the last cycle that was to be compared; that no latch is cut open; a line for each pair, with the last cycle in
/// which it was compared; and the verdict, with what shows it. Where the search stopped before the wanted cycle because the assumption or a
/// circuit would weigh too much in the next one, a line before the verdict tells so.
pub(crate) fn report_searched(
    alloc: Global,
    a: &Net,
    b: &Net,
    name: &Word,
    cycles: u32,
    conflicts: u32,
    searched: &Searched,
) -> Result<Text, NoMemory>
    ensures { IfOk result (λ text. text ≡ searched_text a.now b.now name.now cycles conflicts searched.now) }
{
    let mut text = Vec::new(alloc);
    put_under_front(alloc, &mut text, a, b, name, cycles, searched)?;
    put_verdict(alloc, &mut text, conflicts, searched)?;
    Ok(Seq::from_vec(text))
}

/// Puts what stands before the verdict.
pub fn put_under_front(
    alloc: Global,
    text: &mut Vec<u8>,
    a: &Net,
    b: &Net,
    name: &Word,
    cycles: u32,
    searched: &Searched,
) -> Result<(), NoMemory>
    ensures { OnOk result (text.new.items ≡ text.old.items ++ under_front a.now b.now name.now cycles searched.now) }
{
    put_head(alloc, text, a, b, name)?;
    put_cycles(alloc, text, cycles)?;
    put_pairs(alloc, text, searched.pairs.as_slice())?;
    put_stop(alloc, text, cycles, searched.last, &searched.verdict)
}

/// The report where it wasn't decided whether some row of inputs meets the assumption: the counts, the start, the name and that verdict.
pub(crate) fn report_undecided(
    alloc: Global,
    a: &Net,
    b: &Net,
    name: &Word,
    conflicts: u32,
) -> Result<Text, NoMemory>
    ensures { IfOk result (λ text. text ≡ undecided_text a.now b.now name.now conflicts) }
{
    let mut text = Vec::new(alloc);
    put_undecided(alloc, &mut text, a, b, name, conflicts)?;
    Ok(Seq::from_vec(text))
}

/// Puts that report.
pub fn put_undecided(
    alloc: Global,
    text: &mut Vec<u8>,
    a: &Net,
    b: &Net,
    name: &Word,
    conflicts: u32,
) -> Result<(), NoMemory>
    ensures { OnOk result (text.new.items ≡ text.old.items ++ undecided_text a.now b.now name.now conflicts) }
{
    put_head(alloc, text, a, b, name)?;
    put_count_line(
        alloc,
        text,
        b"verdict limit assume conflicts ",
        u64::from(conflicts),
    )
}

/// Puts the counts, the start and the name of the assumption's output.
fn put_head(
    alloc: Global,
    text: &mut Vec<u8>,
    a: &Net,
    b: &Net,
    name: &Word,
) -> Result<(), NoMemory>
    ensures { OnOk result (text.new.items ≡ text.old.items ++ head_text a.now b.now name.now) }
{
    let inputs = inputs_beside(alloc, a, b)?;
    put_counts(alloc, text, &inputs, a, b)?;
    put(text, b"reset\nassume ")?;
    put(text, name.as_slice())?;
    put(text, b"\n")
}

/// Puts the last cycle that is wanted, and that no latch is cut open.
fn put_cycles(alloc: Global, text: &mut Vec<u8>, cycles: u32) -> Result<(), NoMemory>
    ensures { OnOk result (text.new.items ≡ text.old.items ++ cycles_text cycles) }
{
    put(text, b"cycles ")?;
    put_number(alloc, text, u64::from(cycles))?;
    put(text, b"\nexposed 0\n")
}

/// Puts the line of the assumption where it is why the search stopped before the wanted cycle.
fn put_stop(
    alloc: Global,
    text: &mut Vec<u8>,
    cycles: u32,
    last: u32,
    verdict: &SearchVerdict,
) -> Result<(), NoMemory>
    ensures { OnOk result (text.new.items ≡ text.old.items ++ stop_text cycles last verdict.now) }
{
    match verdict {
        SearchVerdict::NoDifference(None) => put_over(alloc, text, last < cycles, last),
        _ => Ok(()),
    }
}

/// Puts the line of the assumption that is too large in the next cycle, if it is.
fn put_over(alloc: Global, text: &mut Vec<u8>, over: bool, last: u32) -> Result<(), NoMemory>
    ensures { OnOk result (text.new.items ≡ text.old.items ++ over_line over last) }
{
    if over {
        put_count_line(alloc, text, b"too-large C cycle ", u64::from(last) + 1)
    } else {
        Ok(())
    }
}
