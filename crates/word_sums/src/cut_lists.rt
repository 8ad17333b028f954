//! Cuts of at most three leaves of each node of a graph. No clause says which.

ghost use Rattle.std.specs.Prelude.{◌*◌, ◌<◌, length};

use crate::cuts::{Cut, NO_LEAF, Row, lit_bit};
use crate::vanishing::STEPS;
use aig::{Aig, Lit, NoMemory, Node};
use std::alloc::Global;

/// How many cuts a node has at most.
pub(crate) const CUTS: usize = 16;

/// No cut.
const NONE: Cut = Cut {
    first: NO_LEAF,
    second: NO_LEAF,
    third: NO_LEAF,
};

/// The cuts of all nodes, `CUTS` for each in the order of the nodes, `NONE` behind the last one of each.
pub(crate) fn cuts_of(alloc: Global, graph: &Aig) -> Result<Vec<Cut>, NoMemory> {
    let mut cuts = Vec::new(alloc);
    for n in 0..graph.size() {
        let mut found = [NONE; CUTS];
        put_cuts(cuts.as_slice(), graph.node(n), n, &mut found);
        cuts.extend_from_slice(&found)?;
    }
    Ok(cuts)
}

/// The cut of a node with this number, or `NONE`.
pub(crate) fn cut_at(cuts: &[Cut], n: u32, k: u32) -> Cut {
    let place = (n as usize).wrapping_mul(CUTS).wrapping_add(k as usize);
    cuts.get(place).copied().unwrap_or(NONE)
}

/// Whether it is none.
pub(crate) fn is_none(cut: Cut) -> bool {
    cut.first == NO_LEAF
}

/// The node itself as a cut, and behind it what cuts of both operands make together.
fn put_cuts(cuts: &[Cut], node: Node, n: u32, found: &mut [Cut]) {
    put(
        found,
        Cut {
            first: n,
            second: NO_LEAF,
            third: NO_LEAF,
        },
    );
    if let Node::And(l, r) = node {
        for k in 0..CUTS as u32 {
            put_merged(cuts, cut_at(cuts, l.node(), k), r.node(), found);
        }
    }
}

/// What the cut makes with each cut of the node.
fn put_merged(cuts: &[Cut], cut: Cut, n: u32, found: &mut [Cut]) {
    if is_none(cut) {
        return;
    }
    for k in 0..CUTS as u32 {
        let other = cut_at(cuts, n, k);
        if !is_none(other) {
            if let Some(both) = merged(cut, other) {
                put(found, both);
            }
        }
    }
}

/// The leaves of both, if they are at most three.
fn merged(cut: Cut, other: Cut) -> Option<Cut> {
    let one = with_leaf(cut, other.first)?;
    let two = with_leaf(one, other.second)?;
    with_leaf(two, other.third)
}

/// The cut with one leaf more, in order.
fn with_leaf(cut: Cut, leaf: u32) -> Option<Cut> {
    let Cut {
        first,
        second,
        third,
    } = cut;
    if leaf == NO_LEAF || leaf == first || leaf == second || leaf == third {
        return Some(cut);
    }
    if third != NO_LEAF {
        return None;
    }
    if leaf < first {
        Some(Cut {
            first: leaf,
            second: first,
            third: second,
        })
    } else if leaf < second {
        Some(Cut {
            first,
            second: leaf,
            third: second,
        })
    } else {
        Some(Cut {
            first,
            second,
            third: leaf,
        })
    }
}

/// Puts the cut, if it isn't there and there is room.
fn put(found: &mut [Cut], cut: Cut) {
    for k in 0..found.len() {
        let Cut {
            first,
            second,
            third,
        } = found[k];
        if first == NO_LEAF {
            found[k] = cut;
            return;
        }
        if first == cut.first && second == cut.second && third == cut.third {
            return;
        }
    }
}

/// The node's values over the cut: bit k of them where the leaves have the bits of k, the first leaf's the lowest.
pub(crate) fn table_of(graph: &Aig, cut: Cut, n: u32) -> Option<u32>
    requires { n < length graph.now }
{
    graph.keeps();
    let mut table = 0u32;
    for k in 0..8u32 {
        let row = Row {
            first: k % 2 == 1,
            second: k / 2 % 2 == 1,
            third: k / 4 == 1,
        };
        if lit_bit(graph, cut, row, Lit(2 * n), STEPS)? {
            table = table | (1u32 << k);
        }
    }
    Some(table)
}
