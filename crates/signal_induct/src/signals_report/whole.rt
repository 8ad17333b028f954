//! The report of a comparison by ties of signals.

ghost use Rattle.std.specs.Prelude.{◌≡◌, ◌++◌, length, codes, IfOk, OnOk};
ghost use Rattle.std.specs.List.{flat_map};
ghost use Rattle.signal_induct.specs.Tied;
ghost use Rattle.signal_induct.specs.signals_report.Report.{latch_line, latches_text, pair_line, verdict_text, signals_text};

use crate::induction::SignalInduction;
use crate::outputs::{TiedPair, first_apart};
use crate::signals_report::text::{put_count, put_counts, put_latch, put_pair};
use circuit_laws::signal_laws::Anchor;
use flat_net::{LatchAt, Net};
use sec_base::{NoMemory, Seq, Text, put};
use std::alloc::Global;

/// The report: how many signals both circuits have, how many of them are tied to no other, and how many are; a line for each latch that
/// is tied, with what it is tied to; a line for each output; how many ties were dropped since a query met the limit; and the verdict. Each
/// line ends with a line feed; numbers are decimal, and names stand byte for byte.
pub fn report(alloc: Global, a: &Net, b: &Net, made: &SignalInduction) -> Result<Text, NoMemory>
    ensures { IfOk result (λ text. text ≡ signals_text a.now b.now made.now) }
{
    let anchors = &made.ties.anchors;
    let mut text = Vec::new(alloc);
    put_counts(alloc, &mut text, a, b, anchors)?;
    put_ties(&mut text, a, b, anchors)?;
    put_pairs(&mut text, made.pairs.as_slice())?;
    put_count(
        alloc,
        &mut text,
        b"limit-drops ",
        u64::from(made.ties.drops),
    )?;
    put_verdict(&mut text, made.pairs.as_slice())?;
    Ok(Seq::from_vec(text))
}

/// Puts the line of each latch that is tied, A's before B's.
fn put_ties(text: &mut Vec<u8>, a: &Net, b: &Net, anchors: &[Anchor]) -> Result<(), NoMemory>
    ensures { OnOk result (text.new.items ≡ text.old.items ++ (latches_text a.now b.now anchors.now (codes "tie A:") 0 a.now.latches ++ latches_text a.now b.now anchors.now (codes "tie B:") (length a.now.drivers) b.now.latches)) }
{
    put_latches(text, a, b, anchors, b"tie A:", 0, a.latches())?;
    put_latches(text, a, b, anchors, b"tie B:", a.size(), b.latches())
}

/// Puts the line of each of these latches that is tied. The signals of their net have their places from `offset` on.
fn put_latches(
    text: &mut Vec<u8>,
    a: &Net,
    b: &Net,
    anchors: &[Anchor],
    front: &[u8],
    offset: u32,
    latches: &[LatchAt],
) -> Result<(), NoMemory>
    ensures { OnOk result (text.new.items ≡ text.old.items ++ latches_text a.now b.now anchors.now front.now offset latches.now) }
{
    for latch in latches {
        put_latch(text, a, b, anchors, front, offset, latch)?;
    }
    Ok(())
}

fn put_pairs(text: &mut Vec<u8>, pairs: &[TiedPair]) -> Result<(), NoMemory>
    ensures { OnOk result (text.new.items ≡ text.old.items ++ flat_map pair_line pairs.now) }
{
    for pair in pairs {
        put_pair(text, pair)?;
    }
    Ok(())
}

/// Puts the verdict.
fn put_verdict(text: &mut Vec<u8>, pairs: &[TiedPair]) -> Result<(), NoMemory>
    ensures { OnOk result (text.new.items ≡ text.old.items ++ verdict_text (Tied.first_apart pairs.now)) }
{
    match first_apart(pairs) {
        None => put(text, b"verdict equal\n"),
        Some(name) => {
            put(text, b"verdict not-shown ")?;
            put(text, name.as_slice())?;
            put(text, b"\n")
        }
    }
}
