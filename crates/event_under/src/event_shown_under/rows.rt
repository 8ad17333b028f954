//! The rows of a difference's sequence.

ghost use Rattle.std.specs.Prelude.{◌≡◌, ◌<◌, length, All, IfOk};
ghost use Rattle.circuit_theory.specs.Sequence.{sequence_rows};
ghost use Rattle.circuit_theory.specs.Frame.{bits_as_shifts};
ghost use Rattle.event_nodes.specs.event_variables.Variables.{variables_of};
ghost use Rattle.assume_laws.specs.Sequences.{filled_frame};
ghost use Rattle.assume_queries.specs.assume_sequences.Filled.{bit_of};

use crate::event_shown_under::steps::{shifts_at, steps_of};
use crate::event_shown_under::variables::NodeVariables;
use assume_queries::assume_sequences::fill_shifts;
use event_nodes::EventGraph;
use event_nodes::event_variables::frame_sequences::frame_rows;
use sec_base::{BitRows, Bits, NoMemory};
use std::alloc::Global;

/// The rows of the sequence that ends in the cycle `last`, of the frame in which these variables of a query have these bits. Where no variable of
/// both sides stands at the node of a cycle, it holds the meeting row.
pub fn rows_under(
    alloc: Global,
    made: &NodeVariables,
    bits: &[bool],
    last: u32,
    events: &EventGraph,
    sides: &[u32],
    meeting: &Bits,
) -> Result<BitRows, NoMemory>
    requires within { All (λ v. v < length made.now.events.places) made.now.vars.items }
    requires each { length bits.now ≡ length made.now.vars.items }
    requires sides { All (λ v. v < length events.now.places) sides.now }
    ensures { IfOk result (λ rows. rows ≡ sequence_rows last (bits_as_shifts (filled_frame (variables_of events.now sides.now) (variables_of made.now.events made.now.vars.items) (bit_of meeting.now) bits.now)) (length meeting.now)) }
{
    let rows = frame_rows(
        alloc,
        &made.events,
        made.vars.as_slice(),
        bits,
        last,
        meeting.len(),
    )?;
    let steps = steps_of(alloc, events, sides)?;
    let shifts = shifts_at(alloc, steps.as_slice())?;
    fill_shifts(alloc, &rows, &shifts.table, shifts.vars.as_slice(), meeting)
}
