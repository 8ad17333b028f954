//! The rows of a frame's sequence.

ghost use Rattle.std.specs.Prelude.{◌≡◌, ◌<◌, length, false, All, IfOk};
ghost use Rattle.circuit_theory.specs.Sequence.{sequence_rows};
ghost use Rattle.circuit_theory.specs.EventFrames.{frame_of};
ghost use Rattle.circuit_theory.specs.Frame.{bits_as_shifts};
ghost use Rattle.event_nodes.specs.event_variables.Variables.{variables_of};
ghost use Rattle.event_nodes.specs.event_variables.frame_sequences.Frames.{AreRowsOf};

use crate::event_variables::EventGraph;
use crate::event_variables::frame_sequences::table::{put_variable, told_rows, unset_rows};
use sec_base::{BitRows, NoMemory};
use std::alloc::Global;

/// The rows of the sequence that ends in the cycle `last`, one for each cycle, of the frame in which these variables have these bits: the
/// bit of an input at the event node that is so many steps of class 0 stands so many cycles before the last one, at the input's place among
/// so many, and all else is 0.
pub fn frame_rows(
    alloc: Global,
    events: &EventGraph,
    vars: &[u32],
    bits: &[bool],
    last: u32,
    count: usize,
) -> Result<BitRows, NoMemory>
    requires within { All (λ v. v < length events.now.places) vars.now }
    requires each { length bits.now ≡ length vars.now }
    ensures { IfOk result (λ rows. rows ≡ sequence_rows last (bits_as_shifts (frame_of (variables_of events.now vars.now) bits.now)) count) }
{
    let mut rows = unset_rows(alloc, last, count)?;
    put_variables(events, vars, bits, last, count, &mut rows);
    told_rows(alloc, rows)
}

/// The bits of all these variables are put, those of the last one first.
fn put_variables(
    events: &EventGraph,
    vars: &[u32],
    bits: &[bool],
    last: u32,
    count: usize,
    rows: &mut Vec<Vec<bool>>,
)
    requires within { All (λ v. v < length events.now.places) vars.now }
    requires each { length bits.now ≡ length vars.now }
    requires unset { AreRowsOf last count (λ i k. false) rows.old.items }
    ensures { AreRowsOf last count (bits_as_shifts (frame_of (variables_of events.now vars.now) bits.now)) rows.new.items }
{
    let mut left = vars.len();
    while left > 0 {
        left -= 1;
        put_variable(events, vars[left], bits[left], last, count, rows);
    }
}
