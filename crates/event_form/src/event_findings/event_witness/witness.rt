//! The sequence of a difference.

ghost use Rattle.std.specs.Prelude.{◌≡◌, ◌<◌, length, All, IfOk};
ghost use Rattle.base_tables.specs.Table.{AreDistinct};
ghost use Rattle.obligations.specs.outcome.pair_decide.Queries.{IsQuery};
ghost use Rattle.event_form.specs.event_findings.event_witness.Sequences.{IsWitnessOf};

use crate::event_findings::event_witness::sides::sides_of;
use crate::{Events, copy_name};
use event_nodes::event_variables::frame_sequences::frame_rows;
use obligations::outcome::{PairName, Query, Stimulus, Witness};
use sec_base::{Bits, NoMemory, Words};
use std::alloc::Global;

/// The sequence of a pair of this name that ends in the cycle `last`, over the inputs of these names, with the values of both sides: the bit of
/// an input at the event node that is so many steps of class 0 stands so many cycles before the last one, and all else is 0.
pub fn witness_of(
    alloc: Global,
    events: &Events,
    query: &Query,
    bits: &Bits,
    name: &PairName,
    last: u32,
    names: &Words,
) -> Result<Witness, NoMemory>
    requires query { IsQuery events.now.events.graph query.now }
    requires within { All (λ v. v < length events.now.events.places) query.now.vars }
    requires each { length bits.now ≡ length query.now.vars }
    requires distinct { AreDistinct names.now }
    ensures { IfOk result (IsWitnessOf events.now.events query.now bits.now name.now last names.now) }
{
    let vars = query.vars.as_slice();
    let bits = bits.as_slice();
    let sides = sides_of(alloc, events, query, bits)?;
    let rows = frame_rows(alloc, events.graph(), vars, bits, last, names.len())?;
    let names = names.copy()?;
    let pair = copy_name(name)?;
    Ok(Witness {
        pair,
        cycle: last,
        left: sides.0,
        right: sides.1,
        stimulus: Stimulus { names, rows },
    })
}
