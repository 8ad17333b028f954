//! One latch after the other is put back, where that closes no cycle.

ghost use Rattle.std.specs.Prelude.{◌≡◌, ◌+◌, ◌<◌, [], ◌∷◌, ◌++◌, true, false, All, length, slice_get, slice_set, slice_index_or, Some, OnOk, IfOk, if◌then◌else◌};
ghost use Rattle.base_tables.specs.Table.{AreDistinct};
ghost use Rattle.latch_graph.specs.declared.minimal_cut.marks.Mark.{Mark};
ghost use Rattle.latch_graph.specs.minimal_cut.Chosen.{IsFree, IsMinimalChoice};
ghost use Rattle.latch_graph.specs.minimal_cut.Readers.{WayBack};
ghost use Rattle.latch_graph.specs.minimal_cut.Marks.{AreMarks, IsPutBack, IsBlocked, signal_of};
ghost use Rattle.latch_graph.specs.minimal_cut.Trying.{IsField, AreTried};

use crate::minimal_cut::graph_components::{Ids, NoMemory, Node, Seq, SignalGraph, inner_nodes};
use crate::minimal_cut::marks::{Mark, first_marks};
use crate::minimal_cut::readers::readers_of;
use crate::minimal_cut::walk::closes_cycle;
use std::alloc::Global;

/// One of the two graphs, with the positions of its latches in the pairs, its readings that can be part of a cycle, and these turned
/// round.
pub(crate) struct Field<'a> {
    graph: &'a SignalGraph,
    positions: &'a [u32],
    inner: Vec<Node>,
    readers: Vec<Node>,
}

/// It is let go by one call: an owner isn't taken apart field by field at each way out.
impl Drop for Field<'_> {
    fn drop(self) {
        let Field {
            graph: _,
            positions: _,
            inner: _,
            readers: _,
        } = self;
    }
}

/// The places of pairs whose latches are a minimal cut, in increasing order: each pair was tried in turn, and those stay taken out
/// without which a cycle would be left. Without all of them none is left in either graph.
pub fn chosen(
    alloc: Global,
    a: &SignalGraph,
    b: &SignalGraph,
    lefts: &[u32],
    rights: &[u32],
) -> Result<Ids, NoMemory>
    requires left { All (λ j. j < length a.now.latches) lefts.now }
    requires right { All (λ j. j < length b.now.latches) rights.now }
    requires left_once { AreDistinct lefts.now }
    requires right_once { AreDistinct rights.now }
    requires pairs { length rights.now ≡ length lefts.now }
    requires left_free { IsFree a.now lefts.now }
    requires right_free { IsFree b.now rights.now }
    ensures { IfOk result (IsMinimalChoice a.now b.now lefts.now rights.now) }
{
    let field_a = field_of(alloc, a, lefts)?;
    let field_b = field_of(alloc, b, rights)?;
    chosen_in(alloc, &field_a, &field_b)
}

/// The same, by what is kept of both graphs.
fn chosen_in(alloc: Global, a: &Field, b: &Field) -> Result<Ids, NoMemory>
    requires a { IsField a.now.graph.now a.now.positions.now a.now.inner.items a.now.readers.items }
    requires b { IsField b.now.graph.now b.now.positions.now b.now.inner.items b.now.readers.items }
    requires pairs { length b.now.positions.now ≡ length a.now.positions.now }
    requires left_free { IsFree a.now.graph.now a.now.positions.now }
    requires right_free { IsFree b.now.graph.now b.now.positions.now }
    ensures { IfOk result (IsMinimalChoice a.now.graph.now b.now.graph.now a.now.positions.now b.now.positions.now) }
{
    a.graph.keeps();
    b.graph.keeps();
    let mut left = first_marks(alloc, a.graph.nodes(), a.graph.latches(), a.positions)?;
    let mut right = first_marks(alloc, b.graph.nodes(), b.graph.latches(), b.positions)?;
    let places = try_all(alloc, a, b, left.as_mut_slice(), right.as_mut_slice())?;
    Ok(places)
}

fn field_of<'a>(
    alloc: Global,
    graph: &'a SignalGraph,
    positions: &'a [u32],
) -> Result<Field<'a>, NoMemory>
    requires within { All (λ j. j < length graph.now.latches) positions.now }
    requires once { AreDistinct positions.now }
    ensures graph { IfOk result (λ field. field.graph.now ≡ graph.now) }
    ensures positions { IfOk result (λ field. field.positions.now ≡ positions.now) }
    ensures field { IfOk result (λ field. IsField field.graph.now field.positions.now field.inner.items field.readers.items) }
{
    graph.keeps();
    let inner = inner_nodes(alloc, graph.nodes())?;
    let readers = readers_of(alloc, inner.as_slice())?;
    Ok(Field {
        graph,
        positions,
        inner,
        readers,
    })
}

/// Tries each pair in turn, and gives the places of those whose latches stay taken out.
fn try_all(
    alloc: Global,
    a: &Field,
    b: &Field,
    left: &mut [Mark],
    right: &mut [Mark],
) -> Result<Ids, NoMemory>
    requires a { IsField a.now.graph.now a.now.positions.now a.now.inner.items a.now.readers.items }
    requires b { IsField b.now.graph.now b.now.positions.now b.now.inner.items b.now.readers.items }
    requires pairs { length b.now.positions.now ≡ length a.now.positions.now }
    requires none_tried { AreTried a.now.graph.now b.now.graph.now a.now.positions.now b.now.positions.now 0 left.old right.old [] }
    ensures { IfOk result (AreTried a.now.graph.now b.now.graph.now a.now.positions.now b.now.positions.now (length a.now.positions.now) left.new right.new) }
{
    let mut places = Seq::new(alloc);
    for k in 0..a.positions.len() {
        let place = k as u32;
        let turn = place + 1;
        let in_left = closes_at(alloc, a, left, k, turn)?;
        let in_right = closes_at(alloc, b, right, k, turn)?;
        let needed = in_left || in_right;
        take_out_if(needed, a, left, k);
        take_out_if(needed, b, right, k);
        push_if(needed, &mut places, place)?;
    }
    Ok(places)
}

/// Puts the latch at this place back, and tells whether that closes a cycle.
fn closes_at(
    alloc: Global,
    field: &Field,
    marks: &mut [Mark],
    k: usize,
    turn: u32,
) -> Result<bool, NoMemory>
    requires field { IsField field.now.graph.now field.now.positions.now field.now.inner.items field.now.readers.items }
    requires place { k < length field.now.positions.now }
    requires marks { AreMarks field.now.graph.now.nodes marks.old turn }
    requires out { slice_get marks.old (signal_of field.now.graph.now.latches (slice_index_or field.now.positions.now k 0)) ≡ Some Mark.Out }
    ensures yes { IfOk result (λ found. let root = signal_of field.now.graph.now.latches (slice_index_or field.now.positions.now k 0) in found ≡ true → WayBack field.now.graph.now.nodes (IsBlocked marks.new) root root) }
    ensures no { IfOk result (λ found. let root = signal_of field.now.graph.now.latches (slice_index_or field.now.positions.now k 0) in found ≡ false → WayBack field.now.graph.now.nodes (IsBlocked marks.new) root root → ⊥) }
    ensures marks { OnOk result (AreMarks field.now.graph.now.nodes marks.new (turn + 1)) }
    ensures back { OnOk result (IsPutBack marks.old marks.new (signal_of field.now.graph.now.latches (slice_index_or field.now.positions.now k 0))) }
{
    let root = signal_at(field, k);
    let nodes = field.inner.as_slice();
    let found = closes_cycle(alloc, nodes, field.readers.as_slice(), marks, root, turn)?;
    Ok(found)
}

/// The signal of the latch at this place.
fn signal_at(field: &Field, k: usize) -> u32
    requires within { All (λ j. j < length field.now.graph.now.latches) field.now.positions.now }
    requires place { k < length field.now.positions.now }
    ensures { result ≡ signal_of field.now.graph.now.latches (slice_index_or field.now.positions.now k 0) }
{
    let position = field.positions[k];
    field.graph.latches()[position as usize].out.0
}

/// The latch at this place stays taken out, where it is needed.
fn take_out_if(needed: bool, field: &Field, marks: &mut [Mark], k: usize)
    requires within { All (λ j. j < length field.now.graph.now.latches) field.now.positions.now }
    requires place { k < length field.now.positions.now }
    requires signal { signal_of field.now.graph.now.latches (slice_index_or field.now.positions.now k 0) < length marks.old }
    ensures { marks.new ≡ (if needed then slice_set marks.old (signal_of field.now.graph.now.latches (slice_index_or field.now.positions.now k 0)) Mark.Out else marks.old) }
{
    if needed {
        let signal = signal_at(field, k);
        marks[signal as usize] = Mark::Out;
    }
}

fn push_if(needed: bool, places: &mut Ids, place: u32) -> Result<(), NoMemory>
    ensures { OnOk result (places.new ≡ (if needed then places.old ++ place ∷ [] else places.old)) }
{
    if needed {
        places.push(place)?;
    }
    Ok(())
}
