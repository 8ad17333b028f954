//! The report of a comparison by blocks.

ghost use Rattle.std.specs.Prelude.{◌≡◌, ◌++◌, IfOk, OnOk};
ghost use Rattle.std.specs.List.{flat_map};
ghost use Rattle.induct.specs.induct_report.Report.{block_line, blocks_text, listed_text, pair_line, verdict_text, induct_text};

use crate::induct_report::text::{
    put_bits, put_block, put_block_count, put_counts, put_limit, put_pair, put_values,
};
use crate::{Block, Blocks, InductPair, InductVerdict, Induction};
use base_tables::NameTable;
use flat_net::Net;
use sec_base::{NoMemory, Seq, Text, put};
use sec_setup::ports::inputs_beside;
use std::alloc::Global;

/// The report: how many inputs both circuits share and how many latches each has; how many blocks there are, a line for each with its
/// latches, and a line for each output, where no limit was met while blocks were split; and the verdict, with the bits of the inputs and
/// blocks that show it. Each line ends with a line feed; numbers are decimal, and names stand byte for byte.
pub fn report(
    alloc: Global,
    a: &Net,
    b: &Net,
    conflicts: u32,
    made: &Induction,
) -> Result<Text, NoMemory>
    ensures { IfOk result (λ text. text ≡ induct_text a.now b.now conflicts made.now) }
{
    let inputs = inputs_beside(alloc, a, b)?;
    let mut text = Vec::new(alloc);
    put_counts(alloc, &mut text, &inputs, a, b)?;
    put_listed(alloc, &mut text, a, b, made)?;
    put_verdict(alloc, &mut text, &inputs, conflicts, &made.verdict)?;
    Ok(Seq::from_vec(text))
}

/// Puts the lines of blocks and outputs, where there are some.
fn put_listed(
    alloc: Global,
    text: &mut Vec<u8>,
    a: &Net,
    b: &Net,
    made: &Induction,
) -> Result<(), NoMemory>
    ensures { OnOk result (text.new.items ≡ text.old.items ++ listed_text made.now.verdict (blocks_text a.now b.now made.now.blocks ++ flat_map pair_line made.now.pairs)) }
{
    match made.verdict {
        InductVerdict::SplitLimit { .. } => Ok(()),
        InductVerdict::Equal => put_lines(alloc, text, a, b, made),
        InductVerdict::NotShown { .. } => put_lines(alloc, text, a, b, made),
        InductVerdict::Limit { .. } => put_lines(alloc, text, a, b, made),
    }
}

fn put_lines(
    alloc: Global,
    text: &mut Vec<u8>,
    a: &Net,
    b: &Net,
    made: &Induction,
) -> Result<(), NoMemory>
    ensures { OnOk result (text.new.items ≡ text.old.items ++ (blocks_text a.now b.now made.now.blocks ++ flat_map pair_line made.now.pairs)) }
{
    put_blocks(alloc, text, a, b, &made.blocks)?;
    put_pairs(text, made.pairs.as_slice())
}

/// Puts how many blocks there are, and the line of each.
fn put_blocks(
    alloc: Global,
    text: &mut Vec<u8>,
    a: &Net,
    b: &Net,
    blocks: &Blocks,
) -> Result<(), NoMemory>
    ensures { OnOk result (text.new.items ≡ text.old.items ++ blocks_text a.now b.now blocks.now) }
{
    put_block_count(alloc, text, blocks.len() as u64)?;
    put_block_lines(text, a, b, blocks.as_slice())
}

fn put_block_lines(text: &mut Vec<u8>, a: &Net, b: &Net, blocks: &[Block]) -> Result<(), NoMemory>
    ensures { OnOk result (text.new.items ≡ text.old.items ++ flat_map (block_line a.now b.now) blocks.now) }
{
    for block in blocks {
        put_block(text, a, b, block.as_slice())?;
    }
    Ok(())
}

fn put_pairs(text: &mut Vec<u8>, pairs: &[InductPair]) -> Result<(), NoMemory>
    ensures { OnOk result (text.new.items ≡ text.old.items ++ flat_map pair_line pairs.now) }
{
    for pair in pairs {
        put_pair(text, pair)?;
    }
    Ok(())
}

/// Puts the verdict, with the bits that show it.
fn put_verdict(
    alloc: Global,
    text: &mut Vec<u8>,
    inputs: &NameTable,
    conflicts: u32,
    verdict: &InductVerdict,
) -> Result<(), NoMemory>
    ensures { OnOk result (text.new.items ≡ text.old.items ++ verdict_text inputs.now conflicts verdict.now) }
{
    match verdict {
        InductVerdict::Equal => put(text, b"verdict equal\n"),
        InductVerdict::NotShown {
            pair,
            left,
            right,
            vars,
            bits,
        } => {
            put(text, b"verdict not-shown ")?;
            put(text, pair.as_slice())?;
            put_values(text, *left, *right)?;
            put_bits(alloc, text, inputs, vars.as_slice(), bits.as_slice())
        }
        InductVerdict::Limit { pair } => put_limit(alloc, text, pair.as_slice(), conflicts),
        InductVerdict::SplitLimit { .. } => put_limit(alloc, text, b"blocks", conflicts),
    }
}
