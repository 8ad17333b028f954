//! The order of a design's signals, or the names on a loop.

ghost use Rattle.std.specs.Prelude.{◌≡◌, ◌<◌, ◌^◌, ◌++◌, ◌≢◌, ℕ, true, false, [], length, map, take, drop, slice_index_or, slice_get, All, IfOk, IfErr, OnOk};
ghost use Rattle.std.specs.List.{filter};
ghost use Rattle.circuit_theory.specs.Names.{ListBefore};
ghost use Rattle.elaborate.specs.Flat.{name_at, named, view_of};
ghost use Rattle.flatten.specs.Graph.{IsSourceWithin, source_reads, is_gate_source, is_gate_out, graph_of};
ghost use Rattle.elaborate.specs.declared.error.FlatError.TheVariants as fault;
ghost use Rattle.flatten.specs.connectivity.Wired.{IsWired};
ghost use Rattle.flatten.specs.connectivity.Wiring.{wires_of};
ghost use Rattle.flatten.specs.DesignFaults.{IsLoopFault};
ghost use Rattle.flatten.specs.Loops.{IsLoop, IsNamedTurn, AreLoopNames};
ghost use Rattle.net_assembly.specs.Order.{IsOrder};

use crate::connectivity::{Source, Wired};
use elaborate::{Flat, FlatError, FlatKind};
use net_assembly::{Found, order_of};
use sec_base::{Ids, NoMemory, Seq, Words};
use std::alloc::Global;
use std::cmp::Ordering;

/// What a signal with this source reads in the same cycle: a gate its fan-ins, a port its other side.
fn reads_of(alloc: Global, flat: &Flat, source: Source) -> Result<Ids, NoMemory>
    requires { IsSourceWithin (length flat.now.statements) source }
    ensures { IfOk result (λ reads. reads ≡ source_reads flat.now.statements source) }
{
    let Source::Statement(place) = source else {
        return Ok(Seq::new(alloc));
    };
    let statement = &flat.statements.as_slice()[place as usize];
    match statement.kind {
        FlatKind::Latch { .. } => Ok(Seq::new(alloc)),
        _ => statement.reads.copy(),
    }
}

/// What each signal reads in the same cycle.
pub(crate) fn graph(alloc: Global, flat: &Flat, wired: &Wired) -> Result<Vec<Ids>, NoMemory>
    requires len { length wired.now.sources ≡ length flat.now.names }
    requires within { All (IsSourceWithin (length flat.now.statements)) wired.now.sources }
    ensures few { length flat.now.names < 2 ^ 32 }
    ensures graph { IfOk result (λ graph. graph.items ≡ graph_of flat.now.statements wired.now.sources) }
{
    let mut graph = Vec::new(alloc);
    for number in 0..flat.names.len() {
        graph.push(reads_of(alloc, flat, wired.source(number))?)?;
    }
    Ok(graph)
}

/// Whether the source is a gate.
fn is_gate(flat: &Flat, source: Source) -> bool
    requires { IsSourceWithin (length flat.now.statements) source }
    ensures { result ≡ is_gate_source flat.now.statements source }
{
    let Source::Statement(place) = source else {
        return false;
    };
    let statement = &flat.statements.as_slice()[place as usize];
    matches!(statement.kind, FlatKind::Gate { .. })
}

/// Those of the signals that gates drive.
fn gates_of(
    alloc: Global,
    flat: &Flat,
    wired: &Wired,
    numbers: &[u32],
) -> Result<Vec<u32>, NoMemory>
    requires numbers { All (λ n. n < length wired.now.sources) numbers.now }
    requires within { All (IsSourceWithin (length flat.now.statements)) wired.now.sources }
    ensures { IfOk result (λ gates. gates.items ≡ filter (is_gate_out flat.now.statements wired.now.sources) numbers.now) }
{
    let mut gates = Vec::new(alloc);
    for number in numbers {
        if is_gate(flat, wired.source(*number)) {
            gates.push(*number)?;
        }
    }
    Ok(gates)
}

/// Whether the first name comes before the second, in the order of bytes.
fn is_before(first: &[u8], second: &[u8]) -> bool
    ensures yes { result ≡ true → ListBefore first.now second.now }
    ensures no { result ≡ false → ListBefore first.now second.now → ⊥ }
{
    matches!(first.cmp(second), Ordering::Less)
}

/// The place of the least name.
fn least(flat: &Flat, numbers: &[u32]) -> usize
    requires some { 0 < length numbers.now }
    requires within { All (λ n. n < length flat.now.names) numbers.now }
    ensures place { result < length numbers.now }
    ensures least { (k : ℕ) → k < length numbers.now → ListBefore (name_at flat.now.names (slice_index_or numbers.now k 0)) (name_at flat.now.names (slice_index_or numbers.now result 0)) → ⊥ }
{
    let mut least = 0;
    for (place, number) in numbers.iter().enumerate() {
        if is_before(flat.name(*number), flat.name(numbers[least])) {
            least = place;
        }
    }
    least
}

/// The names of the signals.
fn names_of(alloc: Global, flat: &Flat, numbers: &[u32]) -> Result<Words, NoMemory>
    requires { All (λ n. n < length flat.now.names) numbers.now }
    ensures { IfOk result (λ words. words ≡ map (name_at flat.now.names) numbers.now) }
{
    let mut words = Seq::new(alloc);
    for number in numbers {
        words.push(Seq::from_vec(flat.name(*number).to_vec(alloc)?))?;
    }
    Ok(words)
}

/// The numbers from a place on, and then those before it.
fn turned(alloc: Global, numbers: &[u32], place: usize) -> Result<Vec<u32>, NoMemory>
    requires { place < length numbers.now }
    ensures { IfOk result (λ made. made.items ≡ drop place numbers.now ++ take place numbers.now) }
{
    let mut made = Vec::from_slice(alloc, &numbers[place..])?;
    made.extend_from_slice(&numbers[..place])?;
    Ok(made)
}

/// The names of the signals in their order, beginning with the least.
fn named_turn(alloc: Global, flat: &Flat, numbers: &[u32]) -> Result<Words, NoMemory>
    requires some { 0 < length numbers.now }
    requires within { All (λ n. n < length flat.now.names) numbers.now }
    ensures { IfOk result (IsNamedTurn flat.now.names numbers.now) }
{
    let place = least(flat, numbers);
    let made = turned(alloc, numbers, place)?;
    names_of(alloc, flat, &made)
}

/// The names on a loop through these signals: a net has the name at its driver, so they are those of the gates. On a ring
/// of ports there is no gate, and all names are given.
fn loop_names(alloc: Global, flat: &Flat, wired: &Wired, round: &[u32]) -> Result<Words, NoMemory>
    requires some { 0 < length round.now }
    requires len { length wired.now.sources ≡ length flat.now.names }
    requires numbers { All (λ n. n < length flat.now.names) round.now }
    requires within { All (IsSourceWithin (length flat.now.statements)) wired.now.sources }
    ensures { IfOk result (AreLoopNames flat.now.names (is_gate_out flat.now.statements wired.now.sources) round.now) }
{
    let gates = gates_of(alloc, flat, wired, round)?;
    if gates.is_empty() {
        return named_turn(alloc, flat, round);
    }
    named_turn(alloc, flat, &gates)
}

/// All signals, each behind what its driver reads in the same cycle; or the names on a loop.
pub(crate) fn order(alloc: Global, flat: &Flat, wired: &Wired) -> Result<Ids, FlatError>
    requires { IsWired (wires_of flat.now) (length flat.now.names) wired.now }
    ensures order { IfOk result (IsOrder (graph_of flat.now.statements wired.now.sources)) }
    ensures no_loop { OnOk result ((models : _) (names : _) → IsLoop (named (name_at flat.now.names) (view_of models flat.now)) names → ⊥) }
    ensures err { IfErr result (λ e. e ≢ fault.NoMemory → (models : _) → IsLoopFault (named (name_at flat.now.names) (view_of models flat.now)) e) }
{
    let graph = graph(alloc, flat, wired)?;
    match order_of(alloc, &graph)? {
        Found::Order(order) => Ok(order),
        Found::Round(round) => {
            let names = loop_names(alloc, flat, wired, round.as_slice())?;
            Err(FlatError::Loop(names))
        }
    }
}
