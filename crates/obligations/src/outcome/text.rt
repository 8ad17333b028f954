//! The report of a comparison, as text.

ghost use Rattle.std.specs.Prelude.{◌≡◌, ℕ, List, [], ◌∷◌, ◌++◌, length, codes, if◌then◌else◌, OnOk, IfOk};
ghost use Rattle.std.specs.Fmt.{decimal};
ghost use Rattle.std.specs.List.{flat_map};
ghost use Rattle.witness_report.specs.Text.{row_line};
ghost use Rattle.witness_report.specs.frame_report.Text.{frame_text};
ghost use Rattle.obligations.specs.outcome.Report.{answer_word, pair_text, pair_front, size_word, pair_line, bits_text, witness_text, reset_witness_text, latch_text, low_text, separation_text, unshown_text, limit_text, through_line, pairs_text, verdict_text, counts_text, reset_line, assume_line, exposed_line, classes_line, knows_exposed, knows_pairs, report_text};

use crate::outcome::verdict::{
    LimitAt, Outcome, PairResult, ResetWitness, Separation, Unshown, Verdict, Why,
};
use std::alloc::Global;
use witness_report::frame_report::put_frame;
use witness_report::{
    Mode, NoMemory, PairAnswer, PairName, Seq, Settings, Side, Text, Witness, Word, Words,
    digit_of, put, put_digits, put_names, put_number, write_stimulus,
};

fn answer_word(answer: PairAnswer) -> &'static str
    ensures { result.now ≡ answer_word answer }
{
    match answer {
        PairAnswer::Equal => "equal",
        PairAnswer::Different => "different",
        PairAnswer::NotShown => "not-shown",
        PairAnswer::Limit => "limit",
    }
}

/// Puts the word behind what stands before it.
fn put_behind(text: &mut Vec<u8>, front: &[u8], word: &[u8]) -> Result<(), NoMemory>
    ensures { OnOk result (text.new.items ≡ text.old.items ++ (front.now ++ word.now)) }
{
    put(text, front)?;
    put(text, word)
}

/// Puts the number behind what stands before it.
fn put_count(alloc: Global, text: &mut Vec<u8>, front: &[u8], number: u64) -> Result<(), NoMemory>
    ensures { OnOk result (text.new.items ≡ text.old.items ++ (front.now ++ decimal number)) }
{
    put(text, front)?;
    put_number(alloc, text, number)
}

/// Puts the number behind what stands before it, and ends the line.
fn put_count_line(
    alloc: Global,
    text: &mut Vec<u8>,
    front: &[u8],
    number: u64,
) -> Result<(), NoMemory>
    ensures { OnOk result (text.new.items ≡ text.old.items ++ (front.now ++ decimal number ++ 10 ∷ [])) }
{
    put_count(alloc, text, front, number)?;
    put(text, b"\n")
}

/// Puts the pair of a verdict behind what stands before it.
fn put_pair_name(text: &mut Vec<u8>, front: &[u8], name: &PairName) -> Result<(), NoMemory>
    ensures { OnOk result (text.new.items ≡ text.old.items ++ (front.now ++ pair_text name.now)) }
{
    match name {
        PairName::Output(word) => put_behind(text, front, word.as_slice()),
        PairName::Next(word) => {
            put(text, front)?;
            put_behind(text, b"next ", word.as_slice())
        }
    }
}

/// Puts the front of the pair's own line.
fn put_pair_front(text: &mut Vec<u8>, name: &PairName) -> Result<(), NoMemory>
    ensures { OnOk result (text.new.items ≡ text.old.items ++ pair_front name.now) }
{
    match name {
        PairName::Output(word) => put_behind(text, b"pair ", word.as_slice()),
        PairName::Next(word) => put_behind(text, b"next ", word.as_slice()),
    }
}

/// What the size of a pair is.
fn size_word(mode: Mode) -> &'static str
    ensures { result.now ≡ size_word mode }
{
    match mode {
        Mode::Plain => " depth ",
        Mode::Event => " nodes ",
    }
}

fn put_pair(
    alloc: Global,
    text: &mut Vec<u8>,
    mode: Mode,
    pair: &PairResult,
) -> Result<(), NoMemory>
    ensures { OnOk result (text.new.items ≡ text.old.items ++ pair_line mode pair.now) }
{
    put_pair_front(text, &pair.name)?;
    put_count(
        alloc,
        text,
        size_word(mode).as_bytes(),
        u64::from(pair.size),
    )?;
    put_behind(text, b" ", answer_word(pair.answer).as_bytes())?;
    put(text, b"\n")
}

fn put_each(
    alloc: Global,
    text: &mut Vec<u8>,
    mode: Mode,
    pairs: &[PairResult],
) -> Result<(), NoMemory>
    ensures { OnOk result (text.new.items ≡ text.old.items ++ flat_map (pair_line mode) pairs.now) }
{
    for pair in pairs {
        put_pair(alloc, text, mode, pair)?;
    }
    Ok(())
}

/// Puts the values of both sides, and ends the line.
fn put_bits(text: &mut Vec<u8>, left: bool, right: bool) -> Result<(), NoMemory>
    ensures { OnOk result (text.new.items ≡ text.old.items ++ bits_text left right) }
{
    let digits = [digit_of(left), b' ', digit_of(right), b'\n'];
    put_behind(text, b" values ", &digits)
}

/// Puts the pair, the cycle and the values of a sequence behind what stands before them, and then its stimulus.
#[tactic(auto, unfolding(crate::specs::outcome::Report::values_text))]
fn put_witness(
    alloc: Global,
    text: &mut Vec<u8>,
    front: &[u8],
    witness: &Witness,
) -> Result<(), NoMemory>
    ensures { OnOk result (text.new.items ≡ text.old.items ++ (front.now ++ witness_text witness.now)) }
{
    put_pair_name(text, front, &witness.pair)?;
    put_count(alloc, text, b" cycle ", u64::from(witness.cycle))?;
    put_bits(text, witness.left, witness.right)?;
    let stimulus = write_stimulus(alloc, &witness.stimulus)?;
    put(text, stimulus.as_slice())
}

/// Puts the rest of a line: a digit for each latch, or `-` without latches.
fn put_power(text: &mut Vec<u8>, front: &[u8], power: &[bool]) -> Result<(), NoMemory>
    ensures { OnOk result (text.new.items ≡ text.old.items ++ (front.now ++ row_line power.now)) }
{
    if power.is_empty() {
        return put_behind(text, front, b"-\n");
    }
    put(text, front)?;
    put_digits(text, power)?;
    put(text, b"\n")
}

/// Puts a sequence from the initial values that shows a difference, and then the power-ups of both circuits.
fn put_reset_witness(
    alloc: Global,
    text: &mut Vec<u8>,
    front: &[u8],
    shown: &ResetWitness,
) -> Result<(), NoMemory>
    ensures { OnOk result (text.new.items ≡ text.old.items ++ (front.now ++ reset_witness_text shown.now)) }
{
    put_witness(alloc, text, front, &shown.witness)?;
    put_power(text, b"power A ", shown.left_power.as_slice())?;
    put_power(text, b"power B ", shown.right_power.as_slice())
}

/// What stands before the name of a latch of this circuit.
fn latch_front(side: Side) -> &'static str
    ensures { (name : List ℕ) → latch_text side name ≡ result.now ++ name }
{
    match side {
        Side::A => "A:",
        Side::B => "B:",
    }
}

/// Puts a latch and its circuit behind what stands before them.
fn put_latch(text: &mut Vec<u8>, front: &[u8], side: Side, name: &Word) -> Result<(), NoMemory>
    ensures { OnOk result (text.new.items ≡ text.old.items ++ (front.now ++ latch_text side name.now)) }
{
    put(text, front)?;
    put_behind(text, latch_front(side).as_bytes(), name.as_slice())
}

/// Puts a latch of the lower of two classes, where that doesn't always load, behind what stands before it.
fn put_low(text: &mut Vec<u8>, front: &[u8], low: &Option<(Side, Word)>) -> Result<(), NoMemory>
    ensures { OnOk result (text.new.items ≡ text.old.items ++ (front.now ++ low_text low.now)) }
{
    match low {
        Some((side, name)) => put_latch(text, front, *side, name),
        None => put_behind(text, front, b"always"),
    }
}

/// Puts two classes, a latch of each, the values of their enables and the frame that gives them.
#[tactic(auto, unfolding(crate::specs::outcome::Report::separation_text))]
fn put_separation(
    alloc: Global,
    text: &mut Vec<u8>,
    separation: &Separation,
) -> Result<(), NoMemory>
    ensures { OnOk result (text.new.items ≡ text.old.items ++ separation_text separation.now) }
{
    put_count(alloc, text, b"apart ", u64::from(separation.low))?;
    put_count(alloc, text, b" ", u64::from(separation.high))?;
    put_low(text, b" ", &separation.low_latch)?;
    put_latch(
        text,
        b" ",
        separation.high_latch.0,
        &separation.high_latch.1,
    )?;
    put_bits(text, separation.left, separation.right)?;
    put_frame(alloc, text, &separation.frame)
}

fn put_separations(alloc: Global, text: &mut Vec<u8>, apart: &[Separation]) -> Result<(), NoMemory>
    ensures { OnOk result (text.new.items ≡ text.old.items ++ flat_map separation_text apart.now) }
{
    for separation in apart {
        put_separation(alloc, text, separation)?;
    }
    Ok(())
}

/// Puts a pair, the values of both sides and the frame that gives them, and then what tells its classes apart, behind what stands
/// before them.
fn put_unshown(
    alloc: Global,
    text: &mut Vec<u8>,
    front: &[u8],
    unshown: &Unshown,
) -> Result<(), NoMemory>
    ensures { OnOk result (text.new.items ≡ text.old.items ++ (front.now ++ unshown_text unshown.now)) }
{
    put_pair_name(text, front, &unshown.pair)?;
    put_bits(text, unshown.left, unshown.right)?;
    put_frame(alloc, text, &unshown.frame)?;
    put_separations(alloc, text, unshown.apart.as_slice())
}

/// Puts the verdict that the limit was met, and the place.
fn put_limit_at(text: &mut Vec<u8>, at: &LimitAt) -> Result<(), NoMemory>
    ensures { OnOk result (text.new.items ≡ text.old.items ++ (codes "verdict limit " ++ limit_text at.now)) }
{
    match at {
        LimitAt::Assume(_) => put(text, b"verdict limit assume"),
        LimitAt::Recover(side, name, _) => {
            put_latch(text, b"verdict limit recover ", *side, name)
        }
        LimitAt::Class(side, name, _, _) => put_latch(text, b"verdict limit class ", *side, name),
        LimitAt::Pair(name) => put_pair_name(text, b"verdict limit ", name),
    }
}

fn put_limit(
    alloc: Global,
    text: &mut Vec<u8>,
    at: &LimitAt,
    conflicts: u32,
) -> Result<(), NoMemory>
    ensures { OnOk result (text.new.items ≡ text.old.items ++ (codes "verdict limit " ++ limit_text at.now ++ codes " conflicts " ++ decimal conflicts ++ 10 ∷ [])) }
{
    put_limit_at(text, at)?;
    put_count_line(alloc, text, b" conflicts ", u64::from(conflicts))
}

fn put_verdict(
    alloc: Global,
    text: &mut Vec<u8>,
    verdict: &Verdict,
    conflicts: u32,
) -> Result<(), NoMemory>
    ensures { OnOk result (text.new.items ≡ text.old.items ++ verdict_text conflicts verdict.now) }
{
    match verdict {
        Verdict::Equal => put(text, b"verdict equal\n"),
        Verdict::Different(witness) => put_witness(alloc, text, b"verdict different ", witness),
        Verdict::DifferentFrom(shown) => {
            put_reset_witness(alloc, text, b"verdict different ", shown)
        }
        Verdict::NotShown(why) => match why {
            Why::Cut(witness) => put_witness(alloc, text, b"verdict not-shown cut ", witness),
            Why::Events(unshown) => put_unshown(alloc, text, b"verdict not-shown events ", unshown),
        },
        Verdict::Limit(at) => put_limit(alloc, text, at, conflicts),
    }
}

/// Puts the cycle from which on all pairs are settled, where the circuits are equal and latches were cut open; in the event mode there is
/// none.
fn put_through(
    alloc: Global,
    text: &mut Vec<u8>,
    mode: Mode,
    outcome: &Outcome,
) -> Result<(), NoMemory>
    ensures { OnOk result (text.new.items ≡ text.old.items ++ through_line mode outcome.now) }
{
    match mode {
        Mode::Event => Ok(()),
        Mode::Plain => {
            if outcome.exposed.len() == 0 {
                return Ok(());
            }
            match outcome.verdict {
                Verdict::Equal => {
                    put_count_line(alloc, text, b"through ", u64::from(outcome.through))
                }
                _ => Ok(()),
            }
        }
    }
}

/// Puts the line of the event classes.
fn put_class_count(
    alloc: Global,
    text: &mut Vec<u8>,
    mode: Mode,
    classes: u32,
) -> Result<(), NoMemory>
    ensures { OnOk result (text.new.items ≡ text.old.items ++ classes_line mode classes) }
{
    match mode {
        Mode::Plain => Ok(()),
        Mode::Event => put_count_line(alloc, text, b"classes ", u64::from(classes)),
    }
}

/// Puts the lines of the classes and the pairs.
fn put_pairs(
    alloc: Global,
    text: &mut Vec<u8>,
    mode: Mode,
    outcome: &Outcome,
) -> Result<(), NoMemory>
    ensures { OnOk result (text.new.items ≡ text.old.items ++ pairs_text mode outcome.now) }
{
    put_class_count(alloc, text, mode, outcome.classes)?;
    put_each(alloc, text, mode, outcome.pairs.as_slice())?;
    put_through(alloc, text, mode, outcome)
}

fn put_counts(alloc: Global, text: &mut Vec<u8>, outcome: &Outcome) -> Result<(), NoMemory>
    ensures { OnOk result (text.new.items ≡ text.old.items ++ counts_text outcome.now) }
{
    put_count_line(alloc, text, b"inputs ", u64::from(outcome.inputs))?;
    put_count(alloc, text, b"latches ", u64::from(outcome.left_latches))?;
    put_count_line(alloc, text, b" ", u64::from(outcome.right_latches))
}

/// Puts a line that tells that runs begin with the latches' initial values, where they do.
fn put_reset_line(text: &mut Vec<u8>, reset: bool) -> Result<(), NoMemory>
    ensures { OnOk result (text.new.items ≡ text.old.items ++ reset_line reset) }
{
    if reset {
        return put(text, b"reset\n");
    }
    Ok(())
}

/// Puts the line of the assumption on the inputs, where there is one.
fn put_assumed(text: &mut Vec<u8>, assumed: &Option<Word>) -> Result<(), NoMemory>
    ensures { OnOk result (text.new.items ≡ text.old.items ++ assume_line assumed.now) }
{
    match assumed {
        None => Ok(()),
        Some(name) => {
            put_behind(text, b"assume ", name.as_slice())?;
            put(text, b"\n")
        }
    }
}

/// Puts the line of the latches that were cut open.
fn put_exposed(alloc: Global, text: &mut Vec<u8>, exposed: &Words) -> Result<(), NoMemory>
    ensures { OnOk result (text.new.items ≡ text.old.items ++ exposed_line exposed.now) }
{
    put_count(alloc, text, b"exposed ", exposed.len() as u64)?;
    put_names(text, exposed)?;
    put(text, b"\n")
}

/// Puts the lines of what was found out before the verdict.
fn put_found(
    alloc: Global,
    text: &mut Vec<u8>,
    mode: Mode,
    outcome: &Outcome,
) -> Result<(), NoMemory>
    ensures { OnOk result (text.new.items ≡ text.old.items ++ ((if knows_exposed outcome.now.verdict then exposed_line outcome.now.exposed else []) ++ (if knows_pairs outcome.now.verdict then pairs_text mode outcome.now else []))) }
{
    match &outcome.verdict {
        Verdict::Limit(LimitAt::Assume(_)) => Ok(()),
        Verdict::Limit(LimitAt::Recover(_, _, _)) => Ok(()),
        Verdict::Limit(LimitAt::Class(_, _, _, _)) => put_exposed(alloc, text, &outcome.exposed),
        _ => {
            put_exposed(alloc, text, &outcome.exposed)?;
            put_pairs(alloc, text, mode, outcome)
        }
    }
}

/// The report of a comparison: the counts, whether runs begin with the latches' initial values, the assumption where there is one, the
/// latches that were cut open, in the event mode the number of classes, a line for each pair, the cycle from which on all pairs are
/// settled where it is asked for, and the verdict with what shows it. Where the limit was met before pairs were asked about, what wasn't
/// found out is left out. Each line ends with a line feed; numbers are decimal, and names stand byte for byte.
pub fn report(alloc: Global, outcome: &Outcome, settings: &Settings) -> Result<Text, NoMemory>
    ensures { IfOk result (λ text. text ≡ report_text settings.now outcome.now) }
{
    let mut text = Vec::new(alloc);
    put_counts(alloc, &mut text, outcome)?;
    put_reset_line(&mut text, settings.reset)?;
    put_assumed(&mut text, &outcome.assumed)?;
    put_found(alloc, &mut text, settings.mode, outcome)?;
    put_verdict(alloc, &mut text, &outcome.verdict, settings.conflicts)?;
    Ok(Seq::from_vec(text))
}
