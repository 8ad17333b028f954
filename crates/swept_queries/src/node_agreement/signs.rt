//! Signs of literals.

ghost use Rattle.std.specs.Prelude.{◌≡◌, ℕ, ◌*◌, ◌/◌, ◌<◌, Bool, false, List, length};
ghost use Rattle.aig.specs.declared.node.Node.{Node};
ghost use Rattle.aig.specs.Values.{value};
ghost use Rattle.swept_queries.specs.node_agreement.Standing.{StandsFor, signed_lit};

use aig::lane_eval::root_classes::{Aig, Lit};

/// The literal for another one, where this is the literal for its node.
pub fn signed(y: Lit, l: Lit) -> Lit
    ensures is { result.0 ≡ signed_lit y.0 l.0 }
    ensures stands { (with : (ℕ → Bool) → ℕ → Bool) (g h : List Node) → StandsFor with g h (2 * (l.0 / 2)) y.0 → StandsFor with g h l.0 result.0 }
{
    if l.is_complement() { Aig::not(y) } else { y }
}

/// The literal 0.
pub fn zero(graph: &Aig) -> Lit
    ensures within { result.0 < 2 * length graph.now }
    ensures value { (a : ℕ → Bool) → value graph.now a result.0 ≡ false }
{
    graph.keeps();
    Lit::FALSE
}
