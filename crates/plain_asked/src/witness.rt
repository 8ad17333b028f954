//! The sequence of a difference.

ghost use Rattle.std.specs.Prelude.{◌*◌, ◌<◌, length, IfOk};
ghost use Rattle.base_tables.specs.Table.{AreDistinct};
ghost use Rattle.plain_asked.specs.Sequences.{IsSequence, IsWitnessOf};

use crate::functions::Functions;
use cbf_unfold::shift_variables::{rows_of, sides_at};
use outcome_fits::{PairName, Stimulus, Witness, copy_name};
use pair_decide::Query;
use sec_base::{Bits, NoMemory, Words};
use std::alloc::Global;

/// The sequence of a pair of this name that ends in the cycle `last`: the bit of an input at a shift stands so many cycles
/// before the last one, at the input's place among the names, and all else is 0.
pub fn witness_of(
    alloc: Global,
    functions: &Functions,
    query: &Query,
    bits: &Bits,
    name: &PairName,
    last: u32,
    names: &Words,
) -> Result<Witness, NoMemory>
    requires left { query.now.left.0 < 2 * length functions.now.aig }
    requires right { query.now.right.0 < 2 * length functions.now.aig }
    requires sequence { IsSequence functions.now.places query.now.vars bits.now last (length names.now) }
    requires distinct { AreDistinct names.now }
    ensures { IfOk result (IsWitnessOf functions.now.aig functions.now.places query.now bits.now name.now last names.now) }
{
    let places = &functions.places;
    let vars = query.vars.as_slice();
    let bits = bits.as_slice();
    let (left, right) = sides_at(alloc, &functions.aig, places, query, bits)?;
    let pair = copy_name(name)?;
    let count = names.len();
    let names = names.copy()?;
    let rows = rows_of(alloc, places, vars, bits, last, count)?;
    Ok(Witness {
        pair,
        cycle: last,
        left,
        right,
        stimulus: Stimulus { names, rows },
    })
}
