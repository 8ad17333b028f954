//! The report.

ghost use Rattle.std.specs.Prelude.{◌≡◌, ◌++◌, length, IfOk, OnOk};
ghost use Rattle.job_after.specs.Report.{begun_text, sequence_text, unshown_text, shown_text, after_text};

use cycle_search::search_report::{put_count_line, put_front, put_name, put_values, put_verdict};
use cycle_search::{SearchVerdict, Searched};
use flat_net::Net;
use obligations::outcome::{PairName, Witness};
use restart::{put_after, put_unknown};
use sec_base::{NoMemory, Seq, Text, put};
use std::alloc::Global;
use witness_report::write_stimulus;

/// What the report tells besides what a search does: how many rows the stimulus has, what is known of the latches behind them, and the
/// difference that is shown, if one is.
#[derive(Clone, Copy)]
pub(crate) struct After<'a> {
    pub(crate) rows: u64,
    pub(crate) left: &'a [Option<bool>],
    pub(crate) right: &'a [Option<bool>],
    pub(crate) shown: &'a Option<Witness>,
}

/// The report: how many rows the stimulus has; for each circuit how many latches aren't known behind them, with the first one's name; and
/// what a search tells. A difference is told by its sequence, which begins with the rows, where that makes the pair differ whatever both
/// circuits power up with; else the pair and its cycle alone are told.
pub(crate) fn report(
    alloc: Global,
    a: &Net,
    b: &Net,
    cycles: u32,
    conflicts: u32,
    after: &After<'_>,
    searched: &Searched,
) -> Result<Text, NoMemory>
    requires left { length after.now.left.now ≡ length a.now.latches }
    requires right { length after.now.right.now ≡ length b.now.latches }
    ensures { IfOk result (λ text. text ≡ after_text a.now b.now cycles conflicts after.now.rows after.now.left.now after.now.right.now after.now.shown.now searched.now) }
{
    let mut text = Vec::new(alloc);
    put_begun(alloc, &mut text, a, b, after.rows, after.left, after.right)?;
    put_front(alloc, &mut text, a, b, cycles, searched)?;
    put_after_verdict(alloc, &mut text, conflicts, searched, after.shown)?;
    Ok(Seq::from_vec(text))
}

/// Puts how many rows the stimulus has, and for each net how many latches aren't known behind them, with the first one's name.
pub fn put_begun(
    alloc: Global,
    text: &mut Vec<u8>,
    a: &Net,
    b: &Net,
    rows: u64,
    left: &[Option<bool>],
    right: &[Option<bool>],
) -> Result<(), NoMemory>
    requires left { length left.now ≡ length a.now.latches }
    requires right { length right.now ≡ length b.now.latches }
    ensures { OnOk result (text.new.items ≡ text.old.items ++ begun_text a.now b.now rows left.now right.now) }
{
    put_after(alloc, text, rows)?;
    put_unknown(alloc, text, b"unknown A ", a, left)?;
    put_unknown(alloc, text, b"unknown B ", b, right)
}

/// Puts the verdict, with what shows it.
pub fn put_after_verdict(
    alloc: Global,
    text: &mut Vec<u8>,
    conflicts: u32,
    searched: &Searched,
    shown: &Option<Witness>,
) -> Result<(), NoMemory>
    ensures { OnOk result (text.new.items ≡ text.old.items ++ shown_text conflicts searched.now shown.now) }
{
    match shown {
        Some(witness) => put_sequence(alloc, text, witness),
        None => match &searched.verdict {
            SearchVerdict::Different(found) => {
                put_unshown(alloc, text, &found.witness.pair, searched.last)
            }
            _ => put_verdict(alloc, text, conflicts, searched),
        },
    }
}

/// Puts a difference with its sequence.
fn put_sequence(alloc: Global, text: &mut Vec<u8>, witness: &Witness) -> Result<(), NoMemory>
    ensures { OnOk result (text.new.items ≡ text.old.items ++ sequence_text witness.now) }
{
    put_name(text, b"verdict different ", &witness.pair)?;
    put_values(alloc, text, witness)?;
    let stimulus = write_stimulus(alloc, &witness.stimulus)?;
    put(text, stimulus.as_slice())
}

/// Puts a pair whose functions differ in a cycle, where nothing is shown of the circuits.
fn put_unshown(
    alloc: Global,
    text: &mut Vec<u8>,
    pair: &PairName,
    cycle: u32,
) -> Result<(), NoMemory>
    ensures { OnOk result (text.new.items ≡ text.old.items ++ unshown_text pair.now cycle) }
{
    put_name(text, b"verdict not-shown unknown ", pair)?;
    put_count_line(alloc, text, b" cycle ", u64::from(cycle))
}
