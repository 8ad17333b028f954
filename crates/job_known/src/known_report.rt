//! The report of a replay of what is known, and what is said of the circuits.

ghost use Rattle.std.specs.Prelude.{◌≡◌, ◌++◌, IfOk, OnOk};
ghost use Rattle.job_known.specs.Judged.{IsTold};
ghost use Rattle.job_known.specs.Report.{count_of, known_line, known_text, judgement_of};

use crate::known_pairs::KnownReplay;
use cycle_sim::pair_runs::replay_report::replay_report;
use job_after::Judged;
use job_base::{Judgement, Proofs};
use sec_base::{NoMemory, Seq, put, put_number};
use std::alloc::Global;

/// How many of the bits are set.
fn count_of(bits: &[bool]) -> usize
    ensures { result ≡ count_of bits.now }
{
    bits.iter().filter(|bit| **bit).count()
}

/// Puts how many pairs are known in both circuits in some cycle, and in how many of so many cycles one is.
fn put_known(
    alloc: Global,
    text: &mut Vec<u8>,
    rows: u64,
    found: &KnownReplay,
) -> Result<(), NoMemory>
    ensures { OnOk result (text.new.items ≡ text.old.items ++ known_line found.now rows) }
{
    put(text, b"known ")?;
    put_number(alloc, text, count_of(&found.seen) as u64)?;
    put(text, b" of ")?;
    put_number(alloc, text, found.seen.len() as u64)?;
    put(text, b" in ")?;
    put_number(alloc, text, u64::from(found.cycles))?;
    put(text, b" of ")?;
    put_number(alloc, text, rows)?;
    put(text, b" cycles\n")
}

/// Puts the differences, and with `settles` also how much is known.
fn put_found(
    alloc: Global,
    text: &mut Vec<u8>,
    settles: bool,
    rows: u64,
    found: &KnownReplay,
) -> Result<(), NoMemory>
    ensures { OnOk result (text.new.items ≡ text.old.items ++ known_text settles found.now rows) }
{
    let differences = replay_report(alloc, &found.differences)?;
    put(text, differences.as_slice())?;
    if settles {
        return put_known(alloc, text, rows, found);
    }
    Ok(())
}

/// What is said of the circuits: some pair differs; or none does, and with `settles` none is known.
fn judgement_of(settles: bool, found: &KnownReplay) -> Judgement
    ensures { result ≡ judgement_of settles found.now }
{
    if found.differences.len() > 0 {
        return Judgement::Different;
    }
    if settles && count_of(&found.seen) == 0 {
        return Judgement::NotShown;
    }
    Judgement::Equal
}

/// What is told of what both circuits show over so many rows, behind this text.
pub(crate) fn told(
    alloc: Global,
    mut text: Vec<u8>,
    settles: bool,
    rows: u64,
    found: &KnownReplay,
) -> Result<Judged, NoMemory>
    ensures { IfOk result (IsTold settles text.items rows found.now) }
{
    put_found(alloc, &mut text, settles, rows, found)?;
    Ok(Judged {
        judgement: judgement_of(settles, found),
        proofs: Proofs::new(alloc),
        text: Seq::from_vec(text),
    })
}
