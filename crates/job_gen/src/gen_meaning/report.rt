//! The report of a generated pair.

ghost use Rattle.std.specs.Prelude.{◌≡◌, ◌++◌, ◌∷◌, [], length, codes, IfOk, OnOk};
ghost use Rattle.std.specs.Fmt.{decimal};
ghost use Rattle.job_gen.specs.gen_meaning.Report.{gen_text, sizes_text, title_text, verdict_word};

use crate::gen_meaning::generation::Generation;
use crate::pair_gen::Twins;
use obligations::outcome::Verdict;
use sec_base::{NoMemory, Seq, Text, put, put_number};
use std::alloc::Global;

/// The report: the number, how many inputs, outputs, gates and latches there are, and the verdict.
pub fn summary(
    alloc: Global,
    generation: &Generation,
    twins: &Twins,
    verdict: &Verdict,
) -> Result<Text, NoMemory>
    ensures { IfOk result (λ text. text ≡ gen_text generation.now twins.now.a twins.now.b verdict.now) }
{
    let mut text = Vec::new(alloc);
    put_title(alloc, &mut text, generation)?;
    put_sizes(alloc, &mut text, twins)?;
    put_verdict(&mut text, verdict)?;
    Ok(Seq::from_vec(text))
}

/// The lines that say how many inputs, outputs, gates and latches there are.
fn put_sizes(alloc: Global, text: &mut Vec<u8>, twins: &Twins) -> Result<(), NoMemory>
    ensures { OnOk result (text.new.items ≡ text.old.items ++ sizes_text twins.now.a twins.now.b) }
{
    let a = &twins.a;
    let b = &twins.b;
    put_count(alloc, text, b"inputs ", a.inputs().len())?;
    put_count(alloc, text, b"outputs ", a.outputs().len())?;
    put_counts(alloc, text, b"gates ", a.gates().len(), b.gates().len())?;
    put_counts(
        alloc,
        text,
        b"latches ",
        a.latches().len(),
        b.latches().len(),
    )
}

/// The line of the verdict.
fn put_verdict(text: &mut Vec<u8>, verdict: &Verdict) -> Result<(), NoMemory>
    ensures { OnOk result (text.new.items ≡ text.old.items ++ (codes "verdict " ++ verdict_word verdict.now ++ 10 ∷ [])) }
{
    put(text, b"verdict ")?;
    put(text, verdict_word(verdict).as_bytes())?;
    put(text, b"\n")
}

/// The line of the number.
fn put_title(alloc: Global, text: &mut Vec<u8>, generation: &Generation) -> Result<(), NoMemory>
    ensures { OnOk result (text.new.items ≡ text.old.items ++ title_text generation.now) }
{
    put(text, b"gen ")?;
    put_number(alloc, text, generation.seed)?;
    if generation.regroup {
        put(text, b" regroup\n")
    } else {
        put(text, b"\n")
    }
}

/// A line with a number.
fn put_count(alloc: Global, text: &mut Vec<u8>, front: &[u8], count: usize) -> Result<(), NoMemory>
    ensures { OnOk result (text.new.items ≡ text.old.items ++ (front.now ++ decimal count ++ 10 ∷ [])) }
{
    put(text, front)?;
    put_number(alloc, text, count as u64)?;
    put(text, b"\n")
}

/// A line with two numbers.
fn put_counts(
    alloc: Global,
    text: &mut Vec<u8>,
    front: &[u8],
    left: usize,
    right: usize,
) -> Result<(), NoMemory>
    ensures { OnOk result (text.new.items ≡ text.old.items ++ (front.now ++ decimal left ++ 32 ∷ [] ++ decimal right ++ 10 ∷ [])) }
{
    put(text, front)?;
    put_number(alloc, text, left as u64)?;
    put(text, b" ")?;
    put_number(alloc, text, right as u64)?;
    put(text, b"\n")
}

fn verdict_word(verdict: &Verdict) -> &'static str
    ensures { result.now ≡ verdict_word verdict.now }
{
    match verdict {
        Verdict::Equal => "equal",
        Verdict::Different(_) => "different",
        Verdict::DifferentFrom(_) => "different",
        Verdict::NotShown(_) => "not-shown",
        Verdict::Limit(_) => "limit",
    }
}
