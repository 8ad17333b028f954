//! Rows of bits that are written.

ghost use Rattle.std.specs.Prelude.{◌≡◌, ◌<◌, length, false, slice_set, IfOk};
ghost use Rattle.circuit_theory.specs.Frame.{always_node};
ghost use Rattle.event_nodes.specs.event_variables.Variables.{variable_of};
ghost use Rattle.event_nodes.specs.event_variables.frame_sequences.Frames.{rows_in, AreRowsOf, IsTable, HasPut};

use crate::event_variables::EventGraph;
use crate::event_variables::frame_sequences::nodes::always_steps;
use sec_base::{BitRows, NoMemory, Seq};
use std::alloc::Global;

/// Rows of so many bits, one for each cycle up to the last, with no bit set.
pub(crate) fn unset_rows(alloc: Global, last: u32, count: usize) -> Result<Vec<Vec<bool>>, NoMemory>
    ensures { IfOk result (λ rows. AreRowsOf last count (λ i k. false) rows.items) }
{
    let mut rows = Vec::new(alloc);
    for _ in 0..u64::from(last) + 1 {
        let row = vec![in alloc; false; count]?;
        rows.push(row)?;
    }
    Ok(rows)
}

/// The bit of the variable's input is put where its node is so many steps of class 0, in the row of that cycle.
pub(crate) fn put_variable(
    events: &EventGraph,
    variable: u32,
    bit: bool,
    last: u32,
    count: usize,
    rows: &mut Vec<Vec<bool>>,
)
    requires variable { variable < length events.now.places }
    requires table { IsTable last count rows.old.items }
    ensures { HasPut last count (variable_of events.now variable) bit rows.old.items rows.new.items }
{
    events.keeps();
    let (input, node) = events.place(variable);
    if let Some(steps) = always_steps(events, node) {
        put_at(input as usize, steps, bit, last, count, rows);
    }
}

/// The bit of the input is put so many cycles before the last one, if it has a place there.
fn put_at(input: usize, steps: u32, bit: bool, last: u32, count: usize, rows: &mut Vec<Vec<bool>>)
    requires { IsTable last count rows.old.items }
    ensures { HasPut last count (record { input = input; at = always_node steps }) bit rows.old.items rows.new.items }
{
    if steps > last || input >= count {
        return;
    }
    put_bit(&mut rows[(last - steps) as usize], input, bit);
}

/// One bit of a row.
fn put_bit(row: &mut Vec<bool>, place: usize, bit: bool)
    requires { place < length row.old.items }
    ensures { row.new.items ≡ slice_set row.old.items place bit }
{
    row[place] = bit;
}

/// The rows as they are told.
pub(crate) fn told_rows(alloc: Global, rows: Vec<Vec<bool>>) -> Result<BitRows, NoMemory>
    ensures { IfOk result (λ told. told ≡ rows_in rows.items) }
{
    let mut told = BitRows::new(alloc);
    for row in rows {
        told.push(Seq::from_vec(row))?;
    }
    Ok(told)
}
