//! The sequence of a difference.

ghost use Rattle.std.specs.Prelude.{◌≡◌, ◌<◌, length, All, IfOk};
ghost use Rattle.base_tables.specs.Table.{AreDistinct};
ghost use Rattle.event_under.specs.event_under_form.event_witness_under.Shown.{HasSides, IsSequenceAt, IsSequenceOf};

use crate::event_shown_under::rows_under;
use crate::event_under_form::event_witness_under::ready::ReadyDifference;
use event_form::event_findings::EventPairs;
use event_nodes::EventGraph;
use obligations::outcome::{Stimulus, Witness};
use obligations::{Difference, Obligation};
use sec_base::{Bits, Ids, NoMemory, Words};
use std::alloc::Global;

/// The sequence of a difference, which ends in the cycle of its pair's depth. Where no variable of both sides stands at the node of a cycle, it
/// holds the meeting row. The event graph may have grown since the difference was made ready.
pub fn sequence_of(
    alloc: Global,
    events: &EventGraph,
    compared: &EventPairs<'_>,
    asked: &[Obligation],
    meeting: &Bits,
    difference: &Difference,
    ready: ReadyDifference,
) -> Result<Witness, NoMemory>
    requires sides { HasSides events.now compared.now asked.now difference.now }
    requires within { All (λ v. v < length ready.made.events.places) ready.made.vars.items }
    requires each { length difference.now.bits ≡ length ready.made.vars.items }
    requires distinct { AreDistinct compared.now.names.now }
    requires row { length meeting.now ≡ length compared.now.names.now }
    ensures { IfOk result (IsSequenceAt events.now compared.now asked.now meeting.now difference.now ready) }
{
    let sides = &asked[difference.pair].queries.as_slice()[0];
    let last = compared.depths[difference.pair];
    witness_of(
        alloc,
        events,
        &sides.vars,
        last,
        compared.names,
        meeting,
        &difference.bits,
        ready,
    )
}

/// The sequence that ends in the cycle `last`, over the inputs of these names, where the variables of both sides are these.
fn witness_of(
    alloc: Global,
    events: &EventGraph,
    sides: &Ids,
    last: u32,
    names: &Words,
    meeting: &Bits,
    bits: &Bits,
    ready: ReadyDifference,
) -> Result<Witness, NoMemory>
    requires sides { All (λ v. v < length events.now.places) sides.now }
    requires within { All (λ v. v < length ready.made.events.places) ready.made.vars.items }
    requires each { length bits.now ≡ length ready.made.vars.items }
    requires distinct { AreDistinct names.now }
    requires row { length meeting.now ≡ length names.now }
    ensures { IfOk result (IsSequenceOf events.now sides.now last names.now meeting.now bits.now ready) }
{
    let bits = bits.as_slice();
    let sides = sides.as_slice();
    let rows = rows_under(alloc, &ready.made, bits, last, events, sides, meeting)?;
    let names = names.copy()?;
    let ReadyDifference {
        pair,
        left,
        right,
        made: _,
    } = ready;
    Ok(Witness {
        pair,
        cycle: last,
        left,
        right,
        stimulus: Stimulus { names, rows },
    })
}
