//! The bits of literals where the leaves of a cut have given ones.

ghost use Rattle.std.specs.Prelude.{◌≡◌, ℕ, ◌*◌, ◌/◌, ◌<◌, Bool, List, length, IfSome};
ghost use Rattle.aig.specs.declared.node.Node.{Node};
ghost use Rattle.aig.specs.Values.{value};
ghost use Rattle.word_sums.specs.Cuts.{IsAtRow};

use aig::{Aig, Lit, Node};

/// A place of a cut where it has no leaf.
pub(crate) const NO_LEAF: u32 = u32::MAX;

/// The leaves of a cut of at most three nodes, by their numbers, the least first; `NO_LEAF` behind the last.
#[derive(Clone, Copy)]
pub struct Cut {
    pub first: u32,
    pub second: u32,
    pub third: u32,
}

/// A bit for each leaf of a cut.
#[derive(Clone, Copy)]
pub(crate) struct Row {
    pub(crate) first: bool,
    pub(crate) second: bool,
    pub(crate) third: bool,
}

/// The literal's bit wherever the leaves of the cut have these ones, if it is found by at most so many steps down.
pub(crate) fn lit_bit(graph: &Aig, cut: Cut, row: Row, l: Lit, steps: u32) -> Option<bool>
    requires { l.0 < 2 * length graph.now }
    ensures { IfSome result (λ b. (a : ℕ → Bool) → IsAtRow graph.now a cut row → value graph.now a l.0 ≡ b) }
{
    if let Some(bit) = leaf_bit(cut, row, l.node()) {
        return Some(signed(l, bit));
    }
    if steps == 0 {
        return None;
    }
    match graph.node(l.node()) {
        Node::Constant => Some(signed(l, false)),
        Node::Input(_) => None,
        Node::And(left, right) => {
            let x = lit_bit(graph, cut, row, left, steps - 1)?;
            let y = lit_bit(graph, cut, row, right, steps - 1)?;
            Some(signed(l, x && y))
        }
    }
}

/// The node's bit, if it is a leaf.
fn leaf_bit(cut: Cut, row: Row, n: u32) -> Option<bool>
    ensures { IfSome result (λ b. (g : List Node) (a : ℕ → Bool) → IsAtRow g a cut row → value g a (2 * n) ≡ b) }
{
    if n == cut.first {
        Some(row.first)
    } else if n == cut.second {
        Some(row.second)
    } else if n == cut.third {
        Some(row.third)
    } else {
        None
    }
}

/// The literal's bit, where its node has this one.
fn signed(l: Lit, bit: bool) -> bool
    ensures { (g : List Node) (a : ℕ → Bool) → value g a (2 * (l.0 / 2)) ≡ bit → value g a l.0 ≡ result }
{
    if l.is_complement() { !bit } else { bit }
}
