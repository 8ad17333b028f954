//! The lines of the report.

ghost use Rattle.std.specs.Prelude.{◌≡◌, [], ◌∷◌, ◌++◌, ◌-◌, suc, length, zip, codes, OnOk};
ghost use Rattle.std.specs.Fmt.{decimal};
ghost use Rattle.std.specs.List.{flat_map};
ghost use Rattle.flat_net.specs.Cut.{latch_at};
ghost use Rattle.obligations.specs.outcome.Report.{answer_word};
ghost use Rattle.induct.specs.induct_report.Report.{counts_text, member_text, block_line, pair_line, variable_text, bit_line, values_text, limit_text};

use crate::InductPair;
use base_tables::NameTable;
use flat_net::Net;
use sec_base::{NoMemory, PairAnswer, Side, Tag, digit_of, put, put_number};
use std::alloc::Global;

/// Puts how many inputs are shared and how many latches A and B have.
pub(crate) fn put_counts(
    alloc: Global,
    text: &mut Vec<u8>,
    inputs: &NameTable,
    a: &Net,
    b: &Net,
) -> Result<(), NoMemory>
    ensures { OnOk result (text.new.items ≡ text.old.items ++ counts_text (length inputs.now) (length a.now.latches) (length b.now.latches)) }
{
    put(text, b"inputs ")?;
    put_number(alloc, text, u64::from(inputs.len()))?;
    put(text, b"\nlatches ")?;
    put_number(alloc, text, a.latches().len() as u64)?;
    put(text, b" ")?;
    put_number(alloc, text, b.latches().len() as u64)?;
    put(text, b"\n")
}

/// Puts the line of the number of blocks.
pub(crate) fn put_block_count(alloc: Global, text: &mut Vec<u8>, count: u64) -> Result<(), NoMemory>
    ensures { OnOk result (text.new.items ≡ text.old.items ++ (codes "blocks " ++ decimal count ++ 10 ∷ [])) }
{
    put(text, b"blocks ")?;
    put_number(alloc, text, count)?;
    put(text, b"\n")
}

/// Puts the name of a latch of the net behind what stands before it.
fn put_latch(text: &mut Vec<u8>, front: &[u8], net: &Net, latch: u32) -> Result<(), NoMemory>
    ensures { OnOk result (text.new.items ≡ text.old.items ++ (front.now ++ (latch_at net.now latch).name)) }
{
    put(text, front)?;
    match net.latches().get(latch as usize) {
        Some(latch) => put(text, latch.name.as_slice()),
        None => Ok(()),
    }
}

/// Puts a latch behind a blank.
fn put_member(text: &mut Vec<u8>, a: &Net, b: &Net, tag: Tag) -> Result<(), NoMemory>
    ensures { OnOk result (text.new.items ≡ text.old.items ++ member_text a.now b.now tag) }
{
    match tag.side {
        Side::A => put_latch(text, b" A:", a, tag.latch),
        Side::B => put_latch(text, b" B:", b, tag.latch),
    }
}

fn put_members(text: &mut Vec<u8>, a: &Net, b: &Net, block: &[Tag]) -> Result<(), NoMemory>
    ensures { OnOk result (text.new.items ≡ text.old.items ++ flat_map (member_text a.now b.now) block.now) }
{
    for tag in block {
        put_member(text, a, b, *tag)?;
    }
    Ok(())
}

/// Puts the line of a block.
pub(crate) fn put_block(text: &mut Vec<u8>, a: &Net, b: &Net, block: &[Tag]) -> Result<(), NoMemory>
    ensures { OnOk result (text.new.items ≡ text.old.items ++ block_line a.now b.now block.now) }
{
    put(text, b"block")?;
    put_members(text, a, b, block)?;
    put(text, b"\n")
}

fn answer_word(answer: PairAnswer) -> &'static str
    ensures { result.now ≡ answer_word answer }
{
    match answer {
        PairAnswer::Equal => "equal",
        PairAnswer::Different => "different",
        PairAnswer::NotShown => "not-shown",
        PairAnswer::Limit => "limit",
    }
}

/// Puts the line of an output.
pub(crate) fn put_pair(text: &mut Vec<u8>, pair: &InductPair) -> Result<(), NoMemory>
    ensures { OnOk result (text.new.items ≡ text.old.items ++ pair_line pair.now) }
{
    put(text, b"pair ")?;
    put(text, pair.name.as_slice())?;
    put(text, b" ")?;
    put(text, answer_word(pair.answer).as_bytes())?;
    put(text, b"\n")
}

/// Puts the values of an output of A and of B.
pub(crate) fn put_values(text: &mut Vec<u8>, left: bool, right: bool) -> Result<(), NoMemory>
    ensures { OnOk result (text.new.items ≡ text.old.items ++ values_text left right) }
{
    put(text, b" values ")?;
    text.push(digit_of(left))?;
    put(text, b" ")?;
    text.push(digit_of(right))?;
    put(text, b"\n")
}

/// Puts a variable: a shared input by its name, or a block by its number.
fn put_variable(
    alloc: Global,
    text: &mut Vec<u8>,
    inputs: &NameTable,
    v: u32,
) -> Result<(), NoMemory>
    ensures { OnOk result (text.new.items ≡ text.old.items ++ variable_text inputs.now v) }
{
    if v < inputs.len() {
        put(text, b"input ")?;
        put(text, inputs.name(v))
    } else {
        put(text, b"block ")?;
        put_number(alloc, text, u64::from(v - inputs.len()) + 1)
    }
}

/// Puts the line of a variable and its bit.
fn put_bit(
    alloc: Global,
    text: &mut Vec<u8>,
    inputs: &NameTable,
    v: u32,
    bit: bool,
) -> Result<(), NoMemory>
    ensures { OnOk result (text.new.items ≡ text.old.items ++ bit_line inputs.now (v, bit)) }
{
    put_variable(alloc, text, inputs, v)?;
    put(text, b" ")?;
    text.push(digit_of(bit))?;
    put(text, b"\n")
}

/// Puts the lines of the variables and their bits.
pub(crate) fn put_bits(
    alloc: Global,
    text: &mut Vec<u8>,
    inputs: &NameTable,
    vars: &[u32],
    bits: &[bool],
) -> Result<(), NoMemory>
    ensures { OnOk result (text.new.items ≡ text.old.items ++ flat_map (bit_line inputs.now) (zip vars.now bits.now)) }
{
    for k in 0..vars.len().min(bits.len()) {
        put_bit(alloc, text, inputs, vars[k], bits[k])?;
    }
    Ok(())
}

/// Puts the verdict that the limit was met.
pub(crate) fn put_limit(
    alloc: Global,
    text: &mut Vec<u8>,
    at: &[u8],
    conflicts: u32,
) -> Result<(), NoMemory>
    ensures { OnOk result (text.new.items ≡ text.old.items ++ limit_text at.now conflicts) }
{
    put(text, b"verdict limit ")?;
    put(text, at)?;
    put(text, b" conflicts ")?;
    put_number(alloc, text, u64::from(conflicts))?;
    put(text, b"\n")
}
