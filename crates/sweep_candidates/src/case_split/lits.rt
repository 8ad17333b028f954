//! Literals where a variable has a bit.

ghost use Rattle.std.specs.Prelude.{◌≡◌, ℕ, ◌*◌, ◌/◌, ◌<◌, Bool, List, length, IfSome};
ghost use Rattle.aig.specs.declared.node.Node.{Node};
ghost use Rattle.aig.specs.Values.{value};
ghost use Rattle.sweep_candidates.specs.case_split.Under.{StandsUnder, AreUnder};

use aig::{Aig, Lit};

/// The literal of the constant.
pub(crate) fn constant(graph: &Aig, bit: bool) -> Lit
    ensures within { result.0 < 2 * length graph.now }
    ensures value { (a : ℕ → Bool) → value graph.now a result.0 ≡ bit }
{
    graph.keeps();
    if bit {
        Aig::not(Lit::FALSE)
    } else {
        Lit::FALSE
    }
}

/// What is known of the literal by what is known of its node.
pub(crate) fn literal_for(lits: &[Option<Lit>], l: Lit) -> Option<Lit>
    ensures { IfSome result (λ y. (v : ℕ) (bit : Bool) (g h : List Node) → AreUnder g v bit h lits.now → StandsUnder v bit g h l.0 y.0) }
{
    let n = (l.0 / 2) as usize;
    if n >= lits.len() {
        return None;
    }
    match lits[n] {
        Some(y) => Some(signed(y, l)),
        None => None,
    }
}

/// The literal for another one, where this is the literal for its node.
fn signed(y: Lit, l: Lit) -> Lit
    ensures { (v : ℕ) (bit : Bool) (g h : List Node) → StandsUnder v bit g h (2 * (l.0 / 2)) y.0 → StandsUnder v bit g h l.0 result.0 }
{
    if l.is_complement() { Aig::not(y) } else { y }
}
