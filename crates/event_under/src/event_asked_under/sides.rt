//! The sides of pairs, and their care, in the graph in which they are asked under an assumption.

ghost use Rattle.std.specs.Prelude.{◌≡◌, ℕ, ◌*◌, ◌<◌, [], ◌∷◌, length, All, IfOk, OnOk};
ghost use Rattle.aig.specs.Graph.{Grows};
ghost use Rattle.event_under.specs.event_asked_under.Sides.{AreAligned, AreWithSides, HasOneWithin, HasOneCare, IsWithSides};

use aig::graph_copy::graph_clone::literal_for;
use aig::{Aig, Lit};
use obligations::{Obligation, Queries, copy_name};
use pair_decide::Query;
use sec_base::NoMemory;
use std::alloc::Global;

/// The largest graph that one node more fits into.
const MOST: u32 = 1_073_741_822;

/// What is asked: of each obligation the literals of its sides, by those of the event graph's nodes, and both cares together, that of the event
/// form and that of the assumption.
pub(crate) fn with_sides(
    alloc: Global,
    aig: &mut Aig,
    lits: &[Lit],
    asked: &[Obligation],
    under: &[Obligation],
) -> Result<Vec<Obligation>, NoMemory>
    requires aligned { AreAligned (length lits.now) (length aig.old) asked.now under.now }
    requires literals { All (λ l. l.0 < 2 * length aig.old) lits.now }
    ensures made { IfOk result (λ made. AreWithSides lits.now aig.new asked.now under.now made.items) }
    ensures grows { OnOk result (Grows aig.old aig.new) }
{
    aig.keeps();
    let mut made = Vec::new(alloc);
    for i in 0..asked.len() {
        let obligation = one_with_sides(alloc, aig, lits, &asked[i], &under[i])?;
        aig.keeps();
        made.push(obligation)?;
    }
    Ok(made)
}

/// The same of one obligation.
fn one_with_sides(
    alloc: Global,
    aig: &mut Aig,
    lits: &[Lit],
    asked: &Obligation,
    under: &Obligation,
) -> Result<Obligation, NoMemory>
    requires asked { HasOneWithin (length lits.now) asked.now }
    requires under { HasOneCare (length aig.old) under.now }
    requires literals { All (λ l. l.0 < 2 * length aig.old) lits.now }
    ensures made { IfOk result (IsWithSides lits.now aig.new asked.now under.now) }
    ensures grows { OnOk result (Grows aig.old aig.new) }
{
    aig.keeps();
    if aig.size() > MOST {
        return Err(NoMemory);
    }
    let sides = &asked.queries.as_slice()[0];
    let query = &under.queries.as_slice()[0];
    let care = aig.and(query.care, literal_for(lits, sides.care))?;
    let mut queries = Queries::new(alloc);
    queries.push(Query {
        left: literal_for(lits, sides.left),
        right: literal_for(lits, sides.right),
        care,
        vars: query.vars.copy()?,
    })?;
    let name = copy_name(&under.name)?;
    Ok(Obligation {
        name,
        size: under.size,
        decisive: under.decisive,
        queries,
    })
}
