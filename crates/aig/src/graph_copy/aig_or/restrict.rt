//! The and of two literals by two shorter ones: each is restricted to where the other one is 1.

ghost use Rattle.std.specs.Prelude.{◌≡◌, ℕ, ◌+◌, ◌*◌, ◌/◌, ◌<◌, ◌&&◌, Bool, length, IfSome, option_map, unwrap_or};
ghost use Rattle.aig.specs.Graph.{flip};
ghost use Rattle.aig.specs.Rules.{simple_and};
ghost use Rattle.aig.specs.Values.{value};
ghost use Rattle.aig.specs.graph_copy.aig_or.ShortOr.{node_operands, operands, is_conjunct, with_sign, restricted, under, one_and, split_and, short_and};

use crate::graph::simple_and;
use crate::{Aig, Lit, Node};

/// How many steps down a literal is looked into.
const STEPS: u32 = 7;

/// Two literals whose and is that of l and r. They are the same ones for all l and r of some common shapes, as those of a multiplexer whose select
/// is held at one value, with a clear or without.
pub fn short_and(graph: &Aig, l: Lit, r: Lit) -> (Lit, Lit)
    requires l { l.0 < 2 * length graph.now }
    requires r { r.0 < 2 * length graph.now }
    ensures left { result.0.0 ≡ (short_and graph.now l.0 r.0).0 }
    ensures right { result.1.0 ≡ (short_and graph.now l.0 r.0).1 }
    ensures within_left { result.0.0 < 2 * length graph.now }
    ensures within_right { result.1.0 < 2 * length graph.now }
    ensures value { (a : ℕ → Bool) → (value graph.now a result.0.0 && value graph.now a result.1.0) ≡ (value graph.now a l.0 && value graph.now a r.0) }
{
    graph.keeps();
    let left = under(graph, r, l);
    match split_and(graph, left, r) {
        Some((c, x)) => (c, x),
        None => {
            let right = under(graph, left, r);
            (right, under(graph, right, left))
        }
    }
}

/// An operand of r, and the and of l with the other one, if that is one literal.
fn split_and(graph: &Aig, l: Lit, r: Lit) -> Option<(Lit, Lit)>
    requires l { l.0 < 2 * length graph.now }
    requires r { r.0 < 2 * length graph.now }
    ensures { option_map (λ p. (p.0.0, p.1.0)) result ≡ split_and graph.now l.0 (operands graph.now r.0) }
{
    let (c, d) = operands(graph, r)?;
    if let Some(x) = one_and(graph, l, d) {
        return Some((c, x));
    }
    match one_and(graph, l, c) {
        Some(x) => Some((d, x)),
        None => None,
    }
}

/// The and of l and r, if it is one literal: r where l is 1, if l is 1 wherever that is.
#[tactic(auto, unfolding(crate::specs::graph_copy::aig_or::ShortOr::one_and))]
fn one_and(graph: &Aig, l: Lit, r: Lit) -> Option<Lit>
    requires l { l.0 < 2 * length graph.now }
    requires r { r.0 < 2 * length graph.now }
    ensures { option_map (λ x. x.0) result ≡ one_and graph.now l.0 r.0 }
{
    let x = under(graph, l, r);
    if under(graph, x, l).0 == 1 {
        Some(x)
    } else {
        None
    }
}

/// x where a is 1: restricted to that, and 1 where a's complement is 1 wherever x's is.
fn under(graph: &Aig, a: Lit, x: Lit) -> Lit
    requires a { a.0 < 2 * length graph.now }
    requires x { x.0 < 2 * length graph.now }
    ensures literal { result.0 ≡ under graph.now a.0 x.0 }
    ensures within { result.0 < 2 * length graph.now }
{
    graph.keeps();
    if restricted(graph, STEPS, Aig::not(x), Aig::not(a)).0 == 1 {
        return Lit::TRUE;
    }
    restricted(graph, STEPS, a, x)
}

/// x restricted to where a is 1: 1 if it is a conjunct of a, 0 if its complement is, or else by its operands, so many steps down at most.
fn restricted(graph: &Aig, steps: u32, a: Lit, x: Lit) -> Lit
    requires a { a.0 < 2 * length graph.now }
    requires x { x.0 < 2 * length graph.now }
    ensures { result.0 ≡ restricted graph.now steps a.0 x.0 }
{
    if steps == 0 {
        return x;
    }
    if is_conjunct(graph, STEPS, x, a) {
        return Lit::TRUE;
    }
    if is_conjunct(graph, STEPS, Aig::not(x), a) {
        return Lit::FALSE;
    }
    match node_operands(graph, x) {
        Some((l, r)) => joined(
            x,
            restricted(graph, steps - 1, a, l),
            restricted(graph, steps - 1, a, r),
        ),
        None => x,
    }
}

/// The and of l and r where it needs no node, with the sign of x, or else x.
fn joined(x: Lit, l: Lit, r: Lit) -> Lit
    ensures { result.0 ≡ unwrap_or (option_map (with_sign x.0) (simple_and l.0 r.0)) x.0 }
{
    match simple_and(l, r) {
        Some(y) => with_sign(x, y),
        None => x,
    }
}

/// y, or its complement where x is a complement.
#[tactic(auto, unfolding(crate::specs::graph_copy::aig_or::ShortOr::with_sign))]
fn with_sign(x: Lit, y: Lit) -> Lit
    ensures { result.0 ≡ with_sign x.0 y.0 }
{
    if x.is_complement() { Aig::not(y) } else { y }
}

/// Whether e is a conjunct of x: x itself, or one of an operand, so many steps down at most.
fn is_conjunct(graph: &Aig, steps: u32, e: Lit, x: Lit) -> bool
    requires { x.0 < 2 * length graph.now }
    ensures { result ≡ is_conjunct graph.now steps e.0 x.0 }
{
    if x.0 == e.0 {
        return true;
    }
    if steps == 0 {
        return false;
    }
    match operands(graph, x) {
        Some((l, r)) => is_conjunct(graph, steps - 1, e, l) || is_conjunct(graph, steps - 1, e, r),
        None => false,
    }
}

/// The operands of a literal that stands for an and, and not for its complement.
#[tactic(auto, unfolding(crate::specs::graph_copy::aig_or::ShortOr::operands))]
fn operands(graph: &Aig, x: Lit) -> Option<(Lit, Lit)>
    requires { x.0 < 2 * length graph.now }
    ensures operands { result ≡ operands graph.now x.0 }
    ensures within { IfSome result (λ p. (p.0.0 < 2 * length graph.now) × (p.1.0 < 2 * length graph.now)) }
{
    if x.is_complement() {
        return None;
    }
    node_operands(graph, x)
}

/// The operands of the literal's node, if it is an and.
#[tactic(auto, unfolding(crate::specs::graph_copy::aig_or::ShortOr::node_operands))]
fn node_operands(graph: &Aig, x: Lit) -> Option<(Lit, Lit)>
    requires { x.0 < 2 * length graph.now }
    ensures operands { result ≡ node_operands graph.now x.0 }
    ensures within { IfSome result (λ p. (p.0.0 < 2 * length graph.now) × (p.1.0 < 2 * length graph.now)) }
{
    match graph.node(x.node()) {
        Node::And(l, r) => Some((l, r)),
        _ => None,
    }
}
