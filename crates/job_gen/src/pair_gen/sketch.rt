//! A circuit of a pair while it is made.

ghost use Rattle.std.specs.Prelude.{◌≡◌, ◌≤◌, ◌<◌, ◌+◌, ◌^◌, ◌/◌, ◌%◌, true, [], ◌∷◌, length, slice_get, slice_set, IsSomeAnd, OnOk, IfOk};
ghost use Rattle.flat_net.specs.Makes.{empty_net, with_cover, with_next, with_output};
ghost use Rattle.job_gen.specs.pair_gen.Cells.{data_of, shown_by, output_name};
ghost use Rattle.job_gen.specs.pair_gen.Kinds.{rows_of};
ghost use Rattle.job_gen.specs.pair_gen.Twins.{is_regrouped};
ghost use Rattle.job_gen.specs.pair_gen.Sketch.{IsSketch, IsTied, covers_of, cover_number, number_of, signal_of, latch_cell, first_of, output_at};

use crate::pair_gen::cells::{
    Cell, column_of, data_of, name, output_name, second_of, shown_by, signal_of,
};
use crate::pair_gen::kinds::{Kind, kind_of, rows_of};
use flat_net::{NetMaker, Signals};
use sec_base::{Init, NoMemory, Side};
use std::alloc::Global;

/// Which circuit is made, and by which words.
#[derive(Clone, Copy)]
pub(crate) struct Plan<'a> {
    pub(crate) circuit: Side,
    /// Whether exclusive ors of the first layer are regrouped.
    pub(crate) regroup: bool,
    /// One word for each gate.
    pub(crate) words: &'a [u64],
}

/// The inputs, the latches and the gates. Each latch takes over itself until its next is set.
pub(crate) fn add_cells(
    alloc: Global,
    plan: &Plan<'_>,
    maker: &mut NetMaker,
) -> Result<(), NoMemory>
    requires words { length plan.now.words.now ≡ 5040 }
    requires empty { maker.old ≡ record { net = empty_net; set = [] } }
    ensures { OnOk result (IsSketch plan.now.circuit plan.now.regroup plan.now.words.now (covers_of plan.now.circuit plan.now.regroup) maker.new 40 120 5040) }
{
    add_inputs(alloc, plan, maker)?;
    add_latches(alloc, plan, maker)?;
    add_covers(alloc, plan, maker)?;
    add_gates(alloc, plan, maker)
}

fn add_inputs(alloc: Global, plan: &Plan<'_>, maker: &mut NetMaker) -> Result<(), NoMemory>
    requires { IsSketch plan.now.circuit plan.now.regroup plan.now.words.now [] maker.old 0 0 0 }
    ensures { OnOk result (IsSketch plan.now.circuit plan.now.regroup plan.now.words.now [] maker.new 40 0 0) }
{
    for column in 0..40u32 {
        let name = name(alloc, plan.circuit, Cell::Input(column))?;
        maker.input(name.as_slice())?;
    }
    Ok(())
}

fn add_latches(alloc: Global, plan: &Plan<'_>, maker: &mut NetMaker) -> Result<(), NoMemory>
    requires { IsSketch plan.now.circuit plan.now.regroup plan.now.words.now [] maker.old 40 0 0 }
    ensures { OnOk result (IsSketch plan.now.circuit plan.now.regroup plan.now.words.now [] maker.new 40 120 0) }
{
    for place in 0..120u32 {
        let name = name(alloc, plan.circuit, Cell::Latch(place / 40, place % 40))?;
        maker.latch(name.as_slice(), Init::DontCare)?;
    }
    Ok(())
}

/// The rows of the kinds, and where it is asked for of an exclusive or that is regrouped.
fn add_covers(alloc: Global, plan: &Plan<'_>, maker: &mut NetMaker) -> Result<(), NoMemory>
    requires { IsSketch plan.now.circuit plan.now.regroup plan.now.words.now [] maker.old 40 120 0 }
    ensures { OnOk result (IsSketch plan.now.circuit plan.now.regroup plan.now.words.now (covers_of plan.now.circuit plan.now.regroup) maker.new 40 120 0) }
{
    add_rows(alloc, plan.circuit, maker, false, Kind::And)?;
    add_rows(alloc, plan.circuit, maker, false, Kind::Or)?;
    add_rows(alloc, plan.circuit, maker, false, Kind::Xor)?;
    add_rows(alloc, plan.circuit, maker, false, Kind::AndNot)?;
    if plan.regroup {
        add_rows(alloc, plan.circuit, maker, true, Kind::Xor)?;
    }
    Ok(())
}

fn add_rows(
    alloc: Global,
    circuit: Side,
    maker: &mut NetMaker,
    regrouped: bool,
    kind: Kind,
) -> Result<(), NoMemory>
    requires { length maker.old.net.covers ≤ 4 }
    ensures { OnOk result (maker.new ≡ record maker.old { net = with_cover maker.old.net (rows_of circuit regrouped kind) }) }
{
    maker.cover(rows_of(alloc, circuit, regrouped, kind)?)?;
    Ok(())
}

fn add_gates(alloc: Global, plan: &Plan<'_>, maker: &mut NetMaker) -> Result<(), NoMemory>
    requires words { length plan.now.words.now ≡ 5040 }
    requires sketch { IsSketch plan.now.circuit plan.now.regroup plan.now.words.now (covers_of plan.now.circuit plan.now.regroup) maker.old 40 120 0 }
    ensures { OnOk result (IsSketch plan.now.circuit plan.now.regroup plan.now.words.now (covers_of plan.now.circuit plan.now.regroup) maker.new 40 120 5040) }
{
    for place in 0..5040u32 {
        let (stage, layer, column) = (place / 1680, place / 40 % 42, place % 40);
        let word = plan.words[place as usize];
        let first = column_of(plan.circuit, stage, layer, column);
        let second = column_of(plan.circuit, stage, layer, second_of(word, column));
        let fanins = fanins_of(alloc, first, second)?;
        let name = name(alloc, plan.circuit, Cell::Gate(stage, layer, column))?;
        let regrouped = is_regrouped(plan.regroup, stage, layer);
        let cover = cover_number(regrouped, kind_of(word));
        maker.gate(name.as_slice(), fanins, cover)?;
    }
    Ok(())
}

/// The signals of two cells.
fn fanins_of(alloc: Global, first: Cell, second: Cell) -> Result<Signals, NoMemory>
    requires first { number_of first < 2 ^ 32 }
    requires second { number_of second < 2 ^ 32 }
    ensures { IfOk result (λ fanins. fanins ≡ signal_of first ∷ signal_of second ∷ []) }
{
    let mut fanins = Signals::new(alloc);
    fanins.push(signal_of(first))?;
    fanins.push(signal_of(second))?;
    Ok(fanins)
}

/// Whether exclusive ors of this layer are regrouped, where that is asked for.
fn is_regrouped(regroup: bool, stage: u32, layer: u32) -> bool
    ensures { result ≡ is_regrouped regroup stage layer }
{
    regroup && stage == 0 && layer == 0
}

/// The number of the rows of a kind.
fn cover_number(regrouped: bool, kind: Kind) -> u32
    ensures { result ≡ cover_number regrouped kind }
{
    match kind {
        Kind::And => 0,
        Kind::Or => 1,
        Kind::Xor if regrouped => 4,
        Kind::Xor => 2,
        Kind::AndNot => 3,
    }
}

/// Each latch takes over what its circuit says.
pub(crate) fn set_nexts(plan: &Plan<'_>, maker: &mut NetMaker)
    requires { IsSketch plan.now.circuit plan.now.regroup plan.now.words.now (covers_of plan.now.circuit plan.now.regroup) maker.old 40 120 5040 }
    ensures { IsTied plan.now.circuit maker.old maker.new 120 }
{
    for place in 0..120u32 {
        maker.keeps();
        let (stage, column) = (place / 40, place % 40);
        let latch = signal_of(Cell::Latch(stage, column));
        maker.set_next(latch, signal_of(data_of(plan.circuit, stage, column)));
    }
}

/// The outputs.
pub(crate) fn add_outputs(
    alloc: Global,
    plan: &Plan<'_>,
    maker: &mut NetMaker,
) -> Result<(), NoMemory>
    requires size { length maker.old.net.drivers ≡ 5200 }
    requires none { maker.old.net.outputs ≡ [] }
    ensures { OnOk result (maker.new ≡ record maker.old { net = record maker.old.net { outputs = first_of (output_at plan.now.circuit) 40 } }) }
{
    for column in 0..40u32 {
        let name = output_name(alloc, column)?;
        maker.output(name.as_slice(), signal_of(shown_by(plan.circuit, column)))?;
    }
    Ok(())
}
