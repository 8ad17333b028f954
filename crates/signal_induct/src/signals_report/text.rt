//! The lines of the report.

ghost use Rattle.std.specs.Prelude.{◌≡◌, [], ◌∷◌, ◌++◌, ◌-◌, ◌+◌, length, codes, OnOk};
ghost use Rattle.std.specs.Fmt.{decimal};
ghost use Rattle.signal_induct.specs.Tied.{ties_from};
ghost use Rattle.signal_induct.specs.signals_report.Report.{name_at, signal_text, tied_to, tie_line, latch_line, pair_line, counts_text, count_line};

use crate::outputs::TiedPair;
use crate::ties::{anchor_at, is_tied, tie_count};
use circuit_laws::signal_laws::Anchor;
use flat_net::{LatchAt, Net, Signal};
use sec_base::{NoMemory, digit_of, put, put_number};
use std::alloc::Global;

/// Puts a line of a number behind its word.
pub(crate) fn put_count(
    alloc: Global,
    text: &mut Vec<u8>,
    front: &[u8],
    count: u64,
) -> Result<(), NoMemory>
    ensures { OnOk result (text.new.items ≡ text.old.items ++ count_line front.now count) }
{
    put(text, front)?;
    put_number(alloc, text, count)?;
    put(text, b"\n")
}

/// Puts how many signals both nets have, how many of them are tied to no other, and how many are.
pub(crate) fn put_counts(
    alloc: Global,
    text: &mut Vec<u8>,
    a: &Net,
    b: &Net,
    anchors: &[Anchor],
) -> Result<(), NoMemory>
    ensures { OnOk result (text.new.items ≡ text.old.items ++ counts_text a.now b.now anchors.now) }
{
    let signals = u64::from(a.size()) + u64::from(b.size());
    let ties = tie_count(anchors) as u64;
    put_count(alloc, text, b"signals ", signals)?;
    put_count(alloc, text, b"classes ", signals.saturating_sub(ties))?;
    put_count(alloc, text, b"ties ", ties)
}

/// Puts the name of a signal behind what stands before it.
fn put_name(text: &mut Vec<u8>, front: &[u8], net: &Net, place: usize) -> Result<(), NoMemory>
    ensures { OnOk result (text.new.items ≡ text.old.items ++ (front.now ++ name_at net.now place)) }
{
    net.keeps();
    put(text, front)?;
    if place < net.size() as usize {
        return put(text, net.name(Signal(place as u32)));
    }
    put(text, b"")
}

/// Puts the signal at the place.
fn put_signal(text: &mut Vec<u8>, a: &Net, b: &Net, place: usize) -> Result<(), NoMemory>
    ensures { OnOk result (text.new.items ≡ text.old.items ++ signal_text a.now b.now place) }
{
    let size = a.size() as usize;
    if place < size {
        put_name(text, b"A:", a, place)
    } else {
        put_name(text, b"B:", b, place - size)
    }
}

/// Puts what a signal is tied to.
fn put_anchor(text: &mut Vec<u8>, a: &Net, b: &Net, anchor: Anchor) -> Result<(), NoMemory>
    ensures { OnOk result (text.new.items ≡ text.old.items ++ tied_to a.now b.now anchor) }
{
    match anchor {
        Anchor::Bit(bit) => {
            text.push(digit_of(bit))?;
            Ok(())
        }
        Anchor::Place { place, flipped } => {
            put(text, sign(flipped))?;
            put_signal(text, a, b, place)
        }
    }
}

/// What stands before a signal, by whether it is complemented.
fn sign(flipped: bool) -> &'static [u8]
    ensures { result.now ≡ Rattle.signal_induct.specs.signals_report.Report.sign flipped }
{
    if flipped { b"!" } else { b"" }
}

/// Puts the line of a latch of this name that has this anchor.
fn put_tie(
    text: &mut Vec<u8>,
    a: &Net,
    b: &Net,
    front: &[u8],
    name: &[u8],
    anchor: Anchor,
) -> Result<(), NoMemory>
    ensures { OnOk result (text.new.items ≡ text.old.items ++ tie_line a.now b.now front.now name.now anchor) }
{
    put(text, front)?;
    put(text, name)?;
    put(text, b" ")?;
    put_anchor(text, a, b, anchor)?;
    put(text, b"\n")
}

/// Puts the line of the latch, where it is tied. The signals of its net have their places from `offset` on.
pub(crate) fn put_latch(
    text: &mut Vec<u8>,
    a: &Net,
    b: &Net,
    anchors: &[Anchor],
    front: &[u8],
    offset: u32,
    latch: &LatchAt,
) -> Result<(), NoMemory>
    ensures { OnOk result (text.new.items ≡ text.old.items ++ latch_line a.now b.now anchors.now front.now offset latch.now) }
{
    let place = offset as usize + latch.out.0 as usize;
    let anchor = anchor_at(anchors, place);
    if is_tied(place, anchor) {
        return put_tie(text, a, b, front, latch.name.as_slice(), anchor);
    }
    put(text, b"")
}

fn answer_word(equal: bool) -> &'static [u8]
    ensures { result.now ≡ Rattle.signal_induct.specs.signals_report.Report.answer_word equal }
{
    if equal { b" equal\n" } else { b" not-shown\n" }
}

/// Puts the line of an output.
pub(crate) fn put_pair(text: &mut Vec<u8>, pair: &TiedPair) -> Result<(), NoMemory>
    ensures { OnOk result (text.new.items ≡ text.old.items ++ pair_line pair.now) }
{
    put(text, b"pair ")?;
    put(text, pair.name.as_slice())?;
    put(text, answer_word(pair.equal))
}
