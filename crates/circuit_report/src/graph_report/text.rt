//! The lines of the report, as text.

ghost use Rattle.std.specs.Prelude.{◌≡◌, ◌++◌, ◌<◌, map, length, slice_index_or, All, OnOk};
ghost use Rattle.witness_report.specs.Text.{names_text};
ghost use Rattle.flat_net.specs.Cut.{no_latch};
ghost use Rattle.circuit_report.specs.graph_report.Report.{depth_text, kind_word, latch_text, output_text, counts_text};

use flat_net::{LatchAt, Net};
use sec_base::{NoMemory, put, put_number};
use signal_graph::inner_cone::latch_cone::LatchKind;
use std::alloc::Global;

/// Puts how many inputs, outputs and latches there are.
pub(crate) fn put_counts(alloc: Global, text: &mut Vec<u8>, net: &Net) -> Result<(), NoMemory>
    ensures { OnOk result (text.new.items ≡ text.old.items ++ counts_text net.now) }
{
    put(text, b"inputs ")?;
    put_number(alloc, text, net.inputs().len() as u64)?;
    put(text, b"\noutputs ")?;
    put_number(alloc, text, net.outputs().len() as u64)?;
    put(text, b"\nlatches ")?;
    put_number(alloc, text, net.latches().len() as u64)?;
    put(text, b"\n")
}

fn put_depth(alloc: Global, text: &mut Vec<u8>, depth: Option<u32>) -> Result<(), NoMemory>
    ensures { OnOk result (text.new.items ≡ text.old.items ++ depth_text depth) }
{
    match depth {
        Some(latches) => put_number(alloc, text, u64::from(latches)),
        None => put(text, b"-"),
    }
}

fn kind_word(kind: LatchKind) -> &'static str
    ensures { result.now ≡ kind_word kind }
{
    match kind {
        LatchKind::Plain => "plain",
        LatchKind::Enabled => "enabled",
        LatchKind::NotUnate => "not-unate",
    }
}

/// Puts the line of a latch.
pub(crate) fn put_latch(
    alloc: Global,
    text: &mut Vec<u8>,
    name: &[u8],
    depth: Option<u32>,
    kind: LatchKind,
) -> Result<(), NoMemory>
    ensures { OnOk result (text.new.items ≡ text.old.items ++ latch_text name.now depth kind) }
{
    put(text, b"latch ")?;
    put(text, name)?;
    put(text, b" depth ")?;
    put_depth(alloc, text, depth)?;
    put(text, b" ")?;
    put(text, kind_word(kind).as_bytes())?;
    put(text, b"\n")
}

/// Puts the line of an output.
pub(crate) fn put_output(
    alloc: Global,
    text: &mut Vec<u8>,
    name: &[u8],
    depth: Option<u32>,
) -> Result<(), NoMemory>
    ensures { OnOk result (text.new.items ≡ text.old.items ++ output_text name.now depth) }
{
    put(text, b"output ")?;
    put(text, name)?;
    put(text, b" depth ")?;
    put_depth(alloc, text, depth)?;
    put(text, b"\n")
}

/// Puts the names of the latches at these places, each behind a blank.
pub(crate) fn put_names(
    text: &mut Vec<u8>,
    latches: &[LatchAt],
    places: &[u32],
) -> Result<(), NoMemory>
    requires { All (λ j. j < length latches.now) places.now }
    ensures { OnOk result (text.new.items ≡ text.old.items ++ names_text (map (λ j. (slice_index_or latches.now j no_latch).name) places.now)) }
{
    for place in places {
        put(text, b" ")?;
        put(text, latches[*place as usize].name.as_slice())?;
    }
    Ok(())
}
