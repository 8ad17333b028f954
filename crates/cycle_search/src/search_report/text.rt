//! The lines of the report.

ghost use Rattle.std.specs.Prelude.{◌≡◌, [], ◌∷◌, ◌++◌, length, codes, OnOk};
ghost use Rattle.std.specs.Fmt.{decimal};
ghost use Rattle.std.specs.List.{flat_map};
ghost use Rattle.witness_report.specs.Text.{row_line};
ghost use Rattle.obligations.specs.outcome.Report.{answer_word, pair_text};
ghost use Rattle.cycle_search.specs.search_report.Report.{pair_line, stop_line, values_text, powers_text, different_text, verdict_text};

use crate::found::{SearchVerdict, Searched};
use obligations::outcome::{PairName, PairResult, ResetWitness, Witness};
use sec_base::{NoMemory, PairAnswer, Side, digit_of, put, put_digits, put_number};
use std::alloc::Global;
use witness_report::write_stimulus;

/// Puts the number behind what stands before it.
fn put_count(alloc: Global, text: &mut Vec<u8>, front: &[u8], number: u64) -> Result<(), NoMemory>
    ensures { OnOk result (text.new.items ≡ text.old.items ++ (front.now ++ decimal number)) }
{
    put(text, front)?;
    put_number(alloc, text, number)
}

/// Puts the number behind what stands before it, and ends the line.
pub fn put_count_line(
    alloc: Global,
    text: &mut Vec<u8>,
    front: &[u8],
    number: u64,
) -> Result<(), NoMemory>
    ensures { OnOk result (text.new.items ≡ text.old.items ++ (front.now ++ decimal number ++ 10 ∷ [])) }
{
    put_count(alloc, text, front, number)?;
    put(text, b"\n")
}

/// Puts the name of a pair behind what stands before it: an output's, or `next` and a latch's.
pub fn put_name(text: &mut Vec<u8>, front: &[u8], name: &PairName) -> Result<(), NoMemory>
    ensures { OnOk result (text.new.items ≡ text.old.items ++ (front.now ++ pair_text name.now)) }
{
    put(text, front)?;
    match name {
        PairName::Output(word) => put(text, word.as_slice()),
        PairName::Next(word) => {
            put(text, b"next ")?;
            put(text, word.as_slice())
        }
    }
}

fn answer_word(answer: PairAnswer) -> &'static str
    ensures { result.now ≡ answer_word answer }
{
    match answer {
        PairAnswer::Equal => "equal",
        PairAnswer::Different => "different",
        PairAnswer::NotShown => "not-shown",
        PairAnswer::Limit => "limit",
    }
}

/// Puts the line of a pair.
fn put_pair(alloc: Global, text: &mut Vec<u8>, pair: &PairResult) -> Result<(), NoMemory>
    ensures { OnOk result (text.new.items ≡ text.old.items ++ pair_line pair.now) }
{
    put_name(text, b"pair ", &pair.name)?;
    put_count(alloc, text, b" cycles ", u64::from(pair.size))?;
    put(text, b" ")?;
    put(text, answer_word(pair.answer).as_bytes())?;
    put(text, b"\n")
}

/// Puts the lines of the pairs.
pub fn put_pairs(alloc: Global, text: &mut Vec<u8>, pairs: &[PairResult]) -> Result<(), NoMemory>
    ensures { OnOk result (text.new.items ≡ text.old.items ++ flat_map pair_line pairs.now) }
{
    for pair in pairs {
        put_pair(alloc, text, pair)?;
    }
    Ok(())
}

/// Puts the line of the circuit that would be too large in the next cycle, where the search stopped before it.
fn put_stop(
    alloc: Global,
    text: &mut Vec<u8>,
    last: u32,
    side: Option<Side>,
) -> Result<(), NoMemory>
    ensures { OnOk result (text.new.items ≡ text.old.items ++ stop_line last side) }
{
    match side {
        None => Ok(()),
        Some(Side::A) => put_count_line(alloc, text, b"too-large A cycle ", u64::from(last) + 1),
        Some(Side::B) => put_count_line(alloc, text, b"too-large B cycle ", u64::from(last) + 1),
    }
}

/// Puts the cycle of a difference and the values of both sides.
#[tactic(auto, unfolding(crate::specs::search_report::Report::values_text))]
pub fn put_values(alloc: Global, text: &mut Vec<u8>, witness: &Witness) -> Result<(), NoMemory>
    ensures { OnOk result (text.new.items ≡ text.old.items ++ values_text witness.now) }
{
    put_count(alloc, text, b" cycle ", u64::from(witness.cycle))?;
    put(text, b" values ")?;
    text.push(digit_of(witness.left))?;
    put(text, b" ")?;
    text.push(digit_of(witness.right))?;
    put(text, b"\n")
}

/// Puts the rest of a line: a digit for each latch, or `-` without latches.
fn put_power(text: &mut Vec<u8>, front: &[u8], power: &[bool]) -> Result<(), NoMemory>
    ensures { OnOk result (text.new.items ≡ text.old.items ++ (front.now ++ row_line power.now)) }
{
    put(text, front)?;
    if power.is_empty() {
        return put(text, b"-\n");
    }
    put_digits(text, power)?;
    put(text, b"\n")
}

/// Puts a sequence from the initial values that shows a difference, and then the power-ups of both circuits.
fn put_witness(alloc: Global, text: &mut Vec<u8>, shown: &ResetWitness) -> Result<(), NoMemory>
    ensures { OnOk result (text.new.items ≡ text.old.items ++ different_text shown.now) }
{
    put_name(text, b"verdict different ", &shown.witness.pair)?;
    put_values(alloc, text, &shown.witness)?;
    let stimulus = write_stimulus(alloc, &shown.witness.stimulus)?;
    put(text, stimulus.as_slice())?;
    put_powers(text, shown)
}

/// Puts the power-ups of both circuits.
#[tactic(auto, unfolding(crate::specs::search_report::Report::powers_text))]
fn put_powers(text: &mut Vec<u8>, shown: &ResetWitness) -> Result<(), NoMemory>
    ensures { OnOk result (text.new.items ≡ text.old.items ++ powers_text shown.now) }
{
    put_power(text, b"power A ", shown.left_power.as_slice())?;
    put_power(text, b"power B ", shown.right_power.as_slice())
}

/// Puts the verdict, with what shows it.
pub fn put_verdict(
    alloc: Global,
    text: &mut Vec<u8>,
    conflicts: u32,
    searched: &Searched,
) -> Result<(), NoMemory>
    ensures { OnOk result (text.new.items ≡ text.old.items ++ verdict_text conflicts searched.now.last searched.now.verdict) }
{
    match &searched.verdict {
        SearchVerdict::Equal => put(text, b"verdict equal\n"),
        SearchVerdict::Different(witness) => put_witness(alloc, text, witness),
        SearchVerdict::NoDifference(side) => put_agreed(alloc, text, searched.last, *side),
        SearchVerdict::Limit(name) => put_limit(alloc, text, name, conflicts),
    }
}

/// Puts the verdict that no pair differs in the cycles up to the last.
fn put_agreed(
    alloc: Global,
    text: &mut Vec<u8>,
    last: u32,
    side: Option<Side>,
) -> Result<(), NoMemory>
    ensures { OnOk result (text.new.items ≡ text.old.items ++ (stop_line last side ++ (codes "verdict not-shown cycles " ++ decimal last ++ 10 ∷ []))) }
{
    put_stop(alloc, text, last, side)?;
    put_count_line(alloc, text, b"verdict not-shown cycles ", u64::from(last))
}

/// Puts the verdict that the query of this pair wasn't decided.
fn put_limit(
    alloc: Global,
    text: &mut Vec<u8>,
    name: &PairName,
    conflicts: u32,
) -> Result<(), NoMemory>
    ensures { OnOk result (text.new.items ≡ text.old.items ++ (codes "verdict limit " ++ pair_text name.now ++ (codes " conflicts " ++ decimal conflicts ++ 10 ∷ []))) }
{
    put_name(text, b"verdict limit ", name)?;
    put_count_line(alloc, text, b" conflicts ", u64::from(conflicts))
}
