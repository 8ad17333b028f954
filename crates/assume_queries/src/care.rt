//! The and of several literals.

ghost use Rattle.std.specs.Prelude.{◌+◌, ◌*◌, ◌^◌, ◌<◌, ◌≤◌, length, All, IfOk};
ghost use Rattle.aig.specs.Graph.{Grows};
ghost use Rattle.assume_queries.specs.Care.{IsConjunction};

use aig::{Aig, Lit};
use sec_base::NoMemory;

/// The literal that holds where each of these does: the constant 1 where there is none. It makes a node for each at most. After
/// `NoMemory` nodes may have been added.
pub fn conjunction(aig: &mut Aig, lits: &[Lit]) -> Result<Lit, NoMemory>
    requires within { All (λ l. l.0 < 2 * length aig.old) lits.now }
    requires room { length aig.old + length lits.now < 2 ^ 30 }
    ensures conjunction { IfOk result (λ x. IsConjunction aig.old lits.now aig.new x.0) }
    ensures grows { Grows aig.old aig.new }
    ensures few { length aig.new ≤ length aig.old + length lits.now }
{
    aig.keeps();
    let mut all = Lit::TRUE;
    for l in lits {
        let more = aig.and(all, *l)?;
        aig.keeps();
        all = more;
    }
    Ok(all)
}
