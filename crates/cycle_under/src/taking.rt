//! Two circuits and the assumption on their inputs.

ghost use Rattle.std.specs.Prelude.{◌≡◌, ◌<◌, ◌≤◌, [], ◌∷◌, length, IfOk};
ghost use Rattle.flat_net.specs.declared.parts.Port.{Port};
ghost use Rattle.flat_net.specs.Comparable.{IsComparable};
ghost use Rattle.cycle_under.specs.Searches.{SearchesUnder};

use crate::found::{SearchUnder, UnderError};
use crate::search::search_under;
use assume_queries::assume_sequences::assume_taken::{Taken, take};
use cycle_search::{mismatch_of, set_up_cycles};
use flat_net::Net;
use sec_base::{MAX_CONFLICTS, NoMemory, Word};
use sec_setup::{Nets, graph_of, shared_names};
use std::alloc::Global;

/// Searches the circuits `a` and `b` for a difference in the cycles from 0 to the last of `cycles`, in runs from their latches' initial
/// values whose inputs make the output of `c` 1 in each cycle. It refuses, in this order: interfaces that don't match; the first fault of `c`
/// as an assumption on the inputs of both; a `c` that no row of inputs meets; an unfolding of A in cycle 0 that is too large, one of B. Where
/// it isn't decided whether some row meets `c`, nothing is compared.
pub fn search_cycles_under(
    alloc: Global,
    a: &Net,
    b: &Net,
    c: &Net,
    cycles: u32,
    conflicts: u32,
) -> Result<SearchUnder, UnderError>
    requires left { IsComparable a.now }
    requires right { IsComparable b.now }
    requires assumed { IsComparable c.now }
    requires cycles { cycles ≤ 1000 }
    requires conflicts { conflicts ≤ MAX_CONFLICTS }
    ensures { SearchesUnder a.now b.now c.now cycles conflicts result }
{
    a.keeps();
    b.keeps();
    c.keeps();
    let shared = match shared_names(alloc, a, b) {
        Ok(shared) => shared,
        Err(error) => return Err(UnderError::from(mismatch_of(error))),
    };
    let premise = match take(alloc, c, &shared, conflicts)? {
        Taken::Met(premise) => premise,
        Taken::Limit(proof) => return Ok(SearchUnder::Undecided(name_of(c)?, proof)),
    };
    let left_graph = graph_of(alloc, a)?;
    let right_graph = graph_of(alloc, b)?;
    let nets = Nets {
        left: a,
        right: b,
        left_graph: &left_graph,
        right_graph: &right_graph,
    };
    let setup = set_up_cycles(alloc, &nets, &shared)?;
    let searched = search_under(alloc, &setup, &premise, cycles, conflicts)?;
    Ok(SearchUnder::Searched(name_of(c)?, searched))
}

/// The name of the output of a net that has one.
fn name_of(c: &Net) -> Result<Word, NoMemory>
    requires { 0 < length c.now.outputs }
    ensures { IfOk result (λ name. (p : Port) → c.now.outputs ≡ p ∷ [] → name ≡ p.name) }
{
    c.outputs()[0].name.copy()
}
