//! The literals of anchors.

ghost use Rattle.std.specs.Prelude.{◌≡◌, ℕ, Bool, true, not, ◌*◌, ◌<◌, List, [], ◌∷◌, length, All, IfSome, if◌then◌else◌};
ghost use Rattle.circuit_theory.specs.Joined.{Either};
ghost use Rattle.aig.specs.declared.node.Node.{Node};
ghost use Rattle.aig.specs.Graph.{IsGraph};
ghost use Rattle.aig.specs.Values.{value};
ghost use Rattle.signal_refine.specs.Asking.{AnchorHas};

use aig::{Aig, Lit};
use circuit_laws::signal_laws::Anchor;

/// The literal of the anchor, where signals have these literals, if there is one.
pub(crate) fn anchor_literal(lits: &[Lit], anchor: Anchor) -> Option<Lit>
    ensures has { IfSome result (λ m. (g : List Node) (a : ℕ → Bool) → IsGraph g → AnchorHas g a lits.now anchor (value g a m.0)) }
    ensures within { IfSome result (λ m. (n : ℕ) → All (λ x. x.0 < 2 * n) lits.now → 0 < n → m.0 < 2 * n) }
{
    match anchor {
        Anchor::Bit(bit) => Some(constant(bit)),
        Anchor::Place { place, flipped } => {
            if place < lits.len() {
                Some(turned(lits[place], flipped))
            } else {
                None
            }
        }
    }
}

/// The constant.
fn constant(bit: bool) -> Lit
    ensures value { (g : List Node) (a : ℕ → Bool) → IsGraph g → value g a result.0 ≡ bit }
    ensures within { (n : ℕ) → 0 < n → result.0 < 2 * n }
{
    if bit { Lit::TRUE } else { Lit::FALSE }
}

/// The literal, or its complement.
pub(crate) fn turned(l: Lit, flipped: bool) -> Lit
    ensures value { (g : List Node) (a : ℕ → Bool) → value g a result.0 ≡ (if flipped then not (value g a l.0) else value g a l.0) }
    ensures within { (n : ℕ) → l.0 < 2 * n → result.0 < 2 * n }
{
    if flipped { Aig::not(l) } else { l }
}
