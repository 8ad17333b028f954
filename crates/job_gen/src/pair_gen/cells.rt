//! The cells of a generated circuit: where they stand, what they are called, and what they read.

ghost use Rattle.std.specs.Prelude.{◌≡◌, ◌+◌, ◌*◌, ◌/◌, ◌%◌, ◌^◌, ◌<◌, ◌++◌, codes, IfOk, OnOk};
ghost use Rattle.std.specs.Fmt.{decimal};
ghost use Rattle.job_gen.specs.pair_gen.Cells.{name_of, output_name, column_of, data_of, shown_by, second_of};
ghost use Rattle.job_gen.specs.pair_gen.Sketch.{number_of, signal_of, gate_cell, latch_cell};

use flat_net::Signal;
use sec_base::{NoMemory, Side, put, put_number};
use std::alloc::Global;

/// What stands in a column of a generated circuit.
#[derive(Clone, Copy)]
pub enum Cell {
    /// The input of this column.
    Input(u32),
    /// The latch of this stage and column.
    Latch(u32, u32),
    /// The gate of this stage, layer and column.
    Gate(u32, u32, u32),
}

/// The cell's name: `x` and the column; `q` in A and `r` in B, the stage, `_` and the column; `g`, the stage, `_`, the layer, `_` and
/// the column.
pub(crate) fn name(alloc: Global, circuit: Side, cell: Cell) -> Result<Vec<u8>, NoMemory>
    ensures { IfOk result (λ name. name.items ≡ name_of circuit cell) }
{
    let mut name = Vec::new(alloc);
    put_name(alloc, &mut name, circuit, cell)?;
    Ok(name)
}

/// The name of the output of a column.
pub(crate) fn output_name(alloc: Global, column: u32) -> Result<Vec<u8>, NoMemory>
    ensures { IfOk result (λ name. name.items ≡ output_name column) }
{
    let mut name = Vec::new(alloc);
    put_part(alloc, &mut name, b"y", column)?;
    Ok(name)
}

fn put_name(alloc: Global, name: &mut Vec<u8>, circuit: Side, cell: Cell) -> Result<(), NoMemory>
    ensures { OnOk result (name.new.items ≡ name.old.items ++ name_of circuit cell) }
{
    match cell {
        Cell::Input(column) => put_part(alloc, name, b"x", column),
        Cell::Latch(stage, column) => match circuit {
            Side::A => put_parts(alloc, name, b"q", stage, column),
            Side::B => put_parts(alloc, name, b"r", stage, column),
        },
        Cell::Gate(stage, layer, column) => {
            put_parts(alloc, name, b"g", stage, layer)?;
            put_part(alloc, name, b"_", column)
        }
    }
}

/// Puts these bytes and two numbers with a `_` between them.
fn put_parts(
    alloc: Global,
    name: &mut Vec<u8>,
    front: &[u8],
    first: u32,
    second: u32,
) -> Result<(), NoMemory>
    ensures { OnOk result (name.new.items ≡ name.old.items ++ (front.now ++ decimal first ++ codes "_" ++ decimal second)) }
{
    put_part(alloc, name, front, first)?;
    put_part(alloc, name, b"_", second)
}

/// Puts these bytes and a number behind them.
fn put_part(alloc: Global, name: &mut Vec<u8>, front: &[u8], number: u32) -> Result<(), NoMemory>
    ensures { OnOk result (name.new.items ≡ name.old.items ++ (front.now ++ decimal number)) }
{
    put(name, front)?;
    put_number(alloc, name, u64::from(number))
}

/// What a gate of this layer reads as this column.
pub(crate) fn column_of(circuit: Side, stage: u32, layer: u32, column: u32) -> Cell
    ensures { result ≡ column_of circuit stage layer column }
{
    if layer == 0 {
        if stage == 0 {
            return Cell::Input(column);
        }
        return match circuit {
            Side::A => Cell::Latch(stage - 1, column),
            Side::B => Cell::Gate(stage - 1, 41, column),
        };
    }
    match circuit {
        Side::B if layer == 41 => Cell::Latch(stage, column),
        _ => Cell::Gate(stage, layer - 1, column),
    }
}

/// What the latch of this stage and column takes over.
pub(crate) fn data_of(circuit: Side, stage: u32, column: u32) -> Cell
    ensures { result ≡ data_of circuit stage column }
{
    match circuit {
        Side::A => Cell::Gate(stage, 41, column),
        Side::B => Cell::Gate(stage, 40, column),
    }
}

/// What the output of this column shows.
pub(crate) fn shown_by(circuit: Side, column: u32) -> Cell
    ensures { result ≡ shown_by circuit column }
{
    match circuit {
        Side::A => Cell::Latch(2, column),
        Side::B => Cell::Gate(2, 41, column),
    }
}

/// The second column that a gate of this column reads, by its word.
pub(crate) fn second_of(word: u64, column: u32) -> u32
    requires { column < 40 }
    ensures { result ≡ second_of word column }
{
    (column + 1 + (word / 4 % 39) as u32) % 40
}

/// The cell's signal: the inputs come first, then the latches, then the gates.
pub(crate) fn signal_of(cell: Cell) -> Signal
    requires { number_of cell < 2 ^ 32 }
    ensures { result ≡ signal_of cell }
{
    Signal(match cell {
        Cell::Input(column) => column,
        Cell::Latch(stage, column) => 40 + 40 * stage + column,
        Cell::Gate(stage, layer, column) => 160 + 1680 * stage + 40 * layer + column,
    })
}
