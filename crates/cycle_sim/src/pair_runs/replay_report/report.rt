//! The lines of a replay's report, and of what is settled in it, as text.

ghost use Rattle.std.specs.Prelude.{◌≡◌, ◌++◌, length, IfOk, OnOk};
ghost use Rattle.std.specs.List.{flat_map};
ghost use Rattle.cycle_sim.specs.pair_runs.replay_report.Report.{pair_text, values_text, difference_line, end_line, replay_text, since_text, settling_line, settled_count, earlier_of, first_settled, settled_line, settled_replay_text, settle_text};

use crate::pair_runs::differences::{Difference, Differences, Replayed, Settling, Settlings};
use sec_base::{NoMemory, Seq, Text, digit_of, put, put_number};
use std::alloc::Global;
use witness_report::PairName;

/// Puts the name of a pair: `pair` and the outputs' name, or `next` and the latches' name.
fn put_pair(text: &mut Vec<u8>, name: &PairName) -> Result<(), NoMemory>
    ensures { OnOk result (text.new.items ≡ text.old.items ++ pair_text name.now) }
{
    match name {
        PairName::Output(word) => {
            put(text, b"pair ")?;
            put(text, word.as_slice())
        }
        PairName::Next(word) => {
            put(text, b"next ")?;
            put(text, word.as_slice())
        }
    }
}

/// Puts the values in both circuits, and ends the line.
#[tactic(auto, unfolding(crate::specs::pair_runs::replay_report::Report::values_text))]
fn put_values(text: &mut Vec<u8>, left: bool, right: bool) -> Result<(), NoMemory>
    ensures { OnOk result (text.new.items ≡ text.old.items ++ values_text left right) }
{
    put(text, b" values ")?;
    text.push(digit_of(left))?;
    put(text, b" ")?;
    text.push(digit_of(right))?;
    put(text, b"\n")
}

/// Puts the line of a difference: its cycle, its pair, and the values in both circuits.
fn put_difference(
    alloc: Global,
    text: &mut Vec<u8>,
    difference: &Difference,
) -> Result<(), NoMemory>
    ensures { OnOk result (text.new.items ≡ text.old.items ++ difference_line difference.now) }
{
    put(text, b"cycle ")?;
    put_number(alloc, text, u64::from(difference.cycle))?;
    put(text, b" ")?;
    put_pair(text, &difference.pair)?;
    put_values(text, difference.left, difference.right)
}

/// Puts the lines of the differences, in their order.
fn put_differences(
    alloc: Global,
    text: &mut Vec<u8>,
    differences: &[Difference],
) -> Result<(), NoMemory>
    ensures { OnOk result (text.new.items ≡ text.old.items ++ flat_map difference_line differences.now) }
{
    for difference in differences {
        put_difference(alloc, text, difference)?;
    }
    Ok(())
}

/// Puts the last line: `replay same`, or `replay different` and how many differences there are.
fn put_end(alloc: Global, text: &mut Vec<u8>, count: usize) -> Result<(), NoMemory>
    ensures { OnOk result (text.new.items ≡ text.old.items ++ end_line count) }
{
    if count == 0 {
        return put(text, b"replay same\n");
    }
    put(text, b"replay different ")?;
    put_number(alloc, text, count as u64)?;
    put(text, b"\n")
}

/// Puts the report of a replay: a line for each difference, in their order, and then whether there are any, and how many.
fn put_replay(alloc: Global, text: &mut Vec<u8>, differences: &Differences) -> Result<(), NoMemory>
    ensures { OnOk result (text.new.items ≡ text.old.items ++ replay_text differences.now) }
{
    put_differences(alloc, text, differences.as_slice())?;
    put_end(alloc, text, differences.len())
}

/// Puts since when a pair is settled in both circuits, and ends the line.
fn put_since(alloc: Global, text: &mut Vec<u8>, first: Option<u32>) -> Result<(), NoMemory>
    ensures { OnOk result (text.new.items ≡ text.old.items ++ since_text first) }
{
    let Some(cycle) = first else {
        return put(text, b" not yet\n");
    };
    put(text, b" settled ")?;
    put_number(alloc, text, u64::from(cycle))?;
    put(text, b"\n")
}

/// Puts the line of a pair: its name, and since when it is settled in both circuits.
fn put_settling(alloc: Global, text: &mut Vec<u8>, settling: &Settling) -> Result<(), NoMemory>
    ensures { OnOk result (text.new.items ≡ text.old.items ++ settling_line settling.now) }
{
    put_pair(text, &settling.pair)?;
    put_since(alloc, text, settling.first)
}

/// Puts the lines of the pairs, in their order.
fn put_settlings(alloc: Global, text: &mut Vec<u8>, settlings: &[Settling]) -> Result<(), NoMemory>
    ensures { OnOk result (text.new.items ≡ text.old.items ++ flat_map settling_line settlings.now) }
{
    for settling in settlings {
        put_settling(alloc, text, settling)?;
    }
    Ok(())
}

/// How many of the pairs are settled in both circuits in some cycle.
pub fn settled_count(settlings: &Settlings) -> usize
    ensures { result ≡ settled_count settlings.now }
{
    let mut count = 0;
    for settling in settlings.as_slice() {
        if settling.first.is_some() {
            count += 1;
        }
    }
    count
}

/// The earlier of a cycle and another, if there is one.
fn earlier_of(cycle: u32, other: Option<u32>) -> u32
    ensures { result ≡ earlier_of cycle other }
{
    match other {
        Some(first) => first.min(cycle),
        None => cycle,
    }
}

/// The first of so many cycles in which one of the pairs is settled in both circuits; their number, where there is none.
fn first_settled(cycles: u32, settlings: &Settlings) -> u32
    ensures { result ≡ first_settled cycles settlings.now }
{
    let mut least = cycles;
    for settling in settlings.as_slice() {
        least = earlier_of(least, settling.first);
    }
    least
}

/// Puts how many of the pairs are settled in both circuits, and in how many of so many cycles at least one is.
fn put_settled(
    alloc: Global,
    text: &mut Vec<u8>,
    cycles: u32,
    settlings: &Settlings,
) -> Result<(), NoMemory>
    ensures { OnOk result (text.new.items ≡ text.old.items ++ settled_line cycles settlings.now) }
{
    let some = cycles.saturating_sub(first_settled(cycles, settlings));
    put(text, b"settled ")?;
    put_number(alloc, text, settled_count(settlings) as u64)?;
    put(text, b" of ")?;
    put_number(alloc, text, settlings.len() as u64)?;
    put(text, b" in ")?;
    put_number(alloc, text, u64::from(some))?;
    put(text, b" of ")?;
    put_number(alloc, text, u64::from(cycles))?;
    put(text, b" cycles\n")
}

/// The report of a replay: a line for each difference, in their order, and then whether there are any, and how many. Each line ends
/// with a line feed.
pub fn replay_report(alloc: Global, differences: &Differences) -> Result<Text, NoMemory>
    ensures { IfOk result (λ text. text ≡ replay_text differences.now) }
{
    let mut text = Vec::new(alloc);
    put_replay(alloc, &mut text, differences)?;
    Ok(Seq::from_vec(text))
}

/// The same, with one line behind it: how many of the pairs are settled in both circuits, and in how many of so many cycles at least
/// one is.
pub fn settled_replay_report(
    alloc: Global,
    cycles: u32,
    replayed: &Replayed,
) -> Result<Text, NoMemory>
    ensures { IfOk result (λ text. text ≡ settled_replay_text cycles replayed.now) }
{
    let mut text = Vec::new(alloc);
    put_replay(alloc, &mut text, &replayed.differences)?;
    put_settled(alloc, &mut text, cycles, &replayed.settlings)?;
    Ok(Seq::from_vec(text))
}

/// The report of what is settled: a line for each pair, in their order, with the first cycle in which it is settled in both circuits,
/// and then how many are, and in how many of so many cycles at least one is. Each line ends with a line feed.
pub fn settle_report(alloc: Global, cycles: u32, settlings: &Settlings) -> Result<Text, NoMemory>
    ensures { IfOk result (λ text. text ≡ settle_text cycles settlings.now) }
{
    let mut text = Vec::new(alloc);
    put_settlings(alloc, &mut text, settlings.as_slice())?;
    put_settled(alloc, &mut text, cycles, settlings)?;
    Ok(Seq::from_vec(text))
}
