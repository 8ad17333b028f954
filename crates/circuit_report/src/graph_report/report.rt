//! The report of a circuit's latch graph.

ghost use Rattle.std.specs.Prelude.{◌≡◌, ◌<◌, false, length, map, replicate, slice_get, Some, option_map, All, IfOk, IfSome, OnOk};
ghost use Rattle.circuit_theory.specs.declared.Mode.{Mode};
ghost use Rattle.flat_net.specs.Cut.{latch_at};
ghost use Rattle.signal_graph.specs.inner_cone.latch_cone.Kinds.{AreKindsIn};
ghost use Rattle.signal_graph.specs.Graph.{IsGraphOf, IsGraphIn};
ghost use Rattle.circuit_report.specs.graph_report.Report.{IsFound, IsGraphReport};
ghost use Rattle.circuit_report.specs.graph_report.Puts.{PutsLatches, PutsOutputs, PutsCycle};

use crate::graph_report::text::{put_counts, put_latch, put_names, put_output};
use flat_net::Net;
use latch_graph::LatchGraph;
use sec_base::{Bits, Ids, NoMemory, Seq, Text, put};
use signal_graph::inner_cone::latch_cone::{LatchKind, enabled_among};
use std::alloc::Global;

/// The report of a net whose latches are of these kinds in a mode: a line each for the numbers of inputs, outputs and latches; for
/// each latch a line with its sequential depth, or a dash where a cycle of latches leads to it, and its kind; for each output the
/// same without a kind; and last the latches of a cycle from its least name on, or the word `acyclic`. Each line ends with a line
/// feed. Self-edges of latches with a load enable are left out of depths and cycles.
pub fn graph_report(alloc: Global, net: &Net, kinds: &[LatchKind]) -> Result<Text, NoMemory>
    requires { length kinds.now ≡ length net.now.latches }
    ensures { (mode : Mode) → AreKindsIn mode net.now kinds.now → IfOk result (λ text. IsGraphReport mode net.now text) }
{
    let graph = graph_of(alloc, net, kinds)?;
    let mut text = Vec::new(alloc);
    put_counts(alloc, &mut text, net)?;
    put_latches(alloc, &mut text, net, &graph, kinds)?;
    put_outputs(alloc, &mut text, net, &graph)?;
    put_cycle(alloc, &mut text, net, &graph)?;
    Ok(Seq::from_vec(text))
}

/// The latch graph without the self-edges of the latches with a load enable.
fn graph_of(alloc: Global, net: &Net, kinds: &[LatchKind]) -> Result<LatchGraph, NoMemory>
    requires { length kinds.now ≡ length net.now.latches }
    ensures graph { IfOk result (IsGraphOf net.now) }
    ensures in_mode { (mode : Mode) → AreKindsIn mode net.now kinds.now → IfOk result (IsGraphIn mode net.now) }
{
    let enabled = enabled_among(alloc, kinds)?;
    LatchGraph::new(alloc, net, &enabled)
}

/// Puts the lines of the latches.
fn put_latches(
    alloc: Global,
    text: &mut Vec<u8>,
    net: &Net,
    graph: &LatchGraph,
    kinds: &[LatchKind],
) -> Result<(), NoMemory>
    requires graph { IsGraphOf net.now graph.now }
    requires kinds { length kinds.now ≡ length net.now.latches }
    ensures { (mode : Mode) → IsGraphIn mode net.now graph.now → AreKindsIn mode net.now kinds.now →
        OnOk result (PutsLatches mode net.now net.now.latches text.old.items text.new.items) }
{
    for (j, latch) in net.latches().iter().enumerate() {
        let depth = graph.depth(latch.out);
        let kind = kind_at(kinds, j);
        put_latch(alloc, text, latch.name.as_slice(), depth, kind)?;
    }
    Ok(())
}

fn kind_at(kinds: &[LatchKind], j: usize) -> LatchKind
    requires { j < length kinds.now }
    ensures { slice_get kinds.now j ≡ Some result }
{
    kinds[j]
}

/// Puts the lines of the outputs.
fn put_outputs(
    alloc: Global,
    text: &mut Vec<u8>,
    net: &Net,
    graph: &LatchGraph,
) -> Result<(), NoMemory>
    requires { IsGraphOf net.now graph.now }
    ensures { (mode : Mode) → IsGraphIn mode net.now graph.now → OnOk result (PutsOutputs mode net.now net.now.outputs text.old.items text.new.items) }
{
    for output in net.outputs() {
        let depth = graph.depth(output.signal);
        put_output(alloc, text, output.name.as_slice(), depth)?;
    }
    Ok(())
}

/// So many bits, none of them set.
fn unset(alloc: Global, count: usize) -> Result<Bits, NoMemory>
    ensures { IfOk result (λ bits. bits ≡ replicate count false) }
{
    Ok(Seq::from_vec(vec![in alloc; false; count]?))
}

/// The positions of the latches of a cycle, from its least name on; None exactly where there is no cycle.
fn cycle_of(alloc: Global, net: &Net, graph: &LatchGraph) -> Result<Option<Ids>, NoMemory>
    requires { IsGraphOf net.now graph.now }
    ensures within { IfOk result (λ found. IfSome found (All (λ j. j < length net.now.latches))) }
    ensures found { (mode : Mode) → IsGraphIn mode net.now graph.now → IfOk result (λ found. IsFound mode net.now (option_map (map (latch_at net.now)) found)) }
{
    let unset = unset(alloc, net.latches().len())?;
    let found = graph.cycle(alloc, &unset)?;
    Ok(found)
}

/// Puts the line of a cycle, or that there is none.
fn put_cycle(
    alloc: Global,
    text: &mut Vec<u8>,
    net: &Net,
    graph: &LatchGraph,
) -> Result<(), NoMemory>
    requires { IsGraphOf net.now graph.now }
    ensures { (mode : Mode) → IsGraphIn mode net.now graph.now → OnOk result (PutsCycle mode net.now text.old.items text.new.items) }
{
    match cycle_of(alloc, net, graph)? {
        Some(places) => {
            put(text, b"cycle")?;
            put_names(text, net.latches(), places.as_slice())?;
            put(text, b"\n")
        }
        None => put(text, b"acyclic\n"),
    }
}
