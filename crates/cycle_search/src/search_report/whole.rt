//! The whole report.

ghost use Rattle.std.specs.Prelude.{◌≡◌, ◌++◌, length, codes, IfOk, OnOk};
ghost use Rattle.cycle_search.specs.search_report.Report.{counts_text, cycles_text, front_text, search_text};

use crate::found::Searched;
use crate::search_report::text::{put_pairs, put_verdict};
use base_tables::NameTable;
use flat_net::Net;
use sec_base::{NoMemory, Seq, Text, put, put_number};
use sec_setup::ports::inputs_beside;
use std::alloc::Global;

/// The report: how many inputs both circuits share and how many latches each has; that runs begin with the latches' initial values, and
/// the last cycle that was to be compared; that no latch is cut open; a line for each pair, with the last cycle in which it was compared;
/// and the verdict, with what shows it. Where the search stopped before the wanted cycle because a circuit would weigh too much in the
/// next one, a line before the verdict tells so. Each line ends with a line feed; numbers are decimal, and names stand byte for byte.
pub fn report(
    alloc: Global,
    a: &Net,
    b: &Net,
    cycles: u32,
    conflicts: u32,
    searched: &Searched,
) -> Result<Text, NoMemory>
    ensures { IfOk result (λ text. text ≡ search_text a.now b.now cycles conflicts searched.now) }
{
    let mut text = Vec::new(alloc);
    put_front(alloc, &mut text, a, b, cycles, searched)?;
    put_verdict(alloc, &mut text, conflicts, searched)?;
    Ok(Seq::from_vec(text))
}

/// Puts what stands before the verdict.
pub fn put_front(
    alloc: Global,
    text: &mut Vec<u8>,
    a: &Net,
    b: &Net,
    cycles: u32,
    searched: &Searched,
) -> Result<(), NoMemory>
    ensures { OnOk result (text.new.items ≡ text.old.items ++ front_text a.now b.now cycles searched.now) }
{
    let inputs = inputs_beside(alloc, a, b)?;
    put_counts(alloc, text, &inputs, a, b)?;
    put_cycles(alloc, text, cycles)?;
    put_pairs(alloc, text, searched.pairs.as_slice())
}

/// Puts how many inputs are shared and how many latches A and B have.
pub fn put_counts(
    alloc: Global,
    text: &mut Vec<u8>,
    inputs: &NameTable,
    a: &Net,
    b: &Net,
) -> Result<(), NoMemory>
    ensures { OnOk result (text.new.items ≡ text.old.items ++ counts_text (length inputs.now) (length a.now.latches) (length b.now.latches)) }
{
    put(text, b"inputs ")?;
    put_number(alloc, text, u64::from(inputs.len()))?;
    put(text, b"\nlatches ")?;
    put_number(alloc, text, a.latches().len() as u64)?;
    put(text, b" ")?;
    put_number(alloc, text, b.latches().len() as u64)?;
    put(text, b"\n")
}

/// Puts how both are compared.
fn put_cycles(alloc: Global, text: &mut Vec<u8>, cycles: u32) -> Result<(), NoMemory>
    ensures { OnOk result (text.new.items ≡ text.old.items ++ cycles_text cycles) }
{
    put(text, b"reset\ncycles ")?;
    put_number(alloc, text, u64::from(cycles))?;
    put(text, b"\nexposed 0\n")
}
