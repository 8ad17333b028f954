//! The sequence of a pair's difference.

ghost use Rattle.std.specs.Prelude.{◌≡◌, ◌*◌, ◌<◌, length, IfOk};
ghost use Rattle.base_tables.specs.Table.{AreDistinct};
ghost use Rattle.cbf_unfold.specs.shift_variables.cycle_variables.Cycles.{AreInCycles};
ghost use Rattle.reset_form.specs.reset_asked.Sequences.{IsSequenceOf};

use crate::reset_functions::Functions;
use cbf_unfold::shift_variables::cycle_variables::cycle_rows;
use cbf_unfold::shift_variables::sides_at;
use obligations::copy_name;
use obligations::outcome::{PairName, Stimulus, Witness};
use pair_decide::Query;
use sec_base::{Bits, NoMemory, Words};
use std::alloc::Global;

/// The sequence of a pair of this name that ends in the cycle `last`, over the inputs of these names, with the values of both sides.
pub fn sequence_of(
    alloc: Global,
    functions: &Functions,
    query: &Query,
    bits: &Bits,
    name: &PairName,
    last: u32,
    names: &Words,
) -> Result<Witness, NoMemory>
    requires left { query.now.left.0 < 2 * length functions.now.aig }
    requires right { query.now.right.0 < 2 * length functions.now.aig }
    requires each { length bits.now ≡ length query.now.vars }
    requires in_order { AreInCycles functions.now.places query.now.vars }
    requires distinct { AreDistinct names.now }
    ensures { IfOk result (IsSequenceOf functions.now.aig functions.now.places query.now bits.now name.now last names.now) }
{
    let bits = bits.as_slice();
    let (left, right) = sides_at(alloc, &functions.aig, &functions.places, query, bits)?;
    let pair = copy_name(name)?;
    let count = names.len();
    let names = names.copy()?;
    let rows = cycle_rows(
        alloc,
        &functions.places,
        query.vars.as_slice(),
        bits,
        last,
        count,
    )?;
    Ok(Witness {
        pair,
        cycle: last,
        left,
        right,
        stimulus: Stimulus { names, rows },
    })
}
