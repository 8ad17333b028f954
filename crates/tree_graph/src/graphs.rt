//! The graph of two trees.

ghost use Rattle.std.specs.Prelude.{◌≡◌, ◌≢◌, ℕ, ◌*◌, ◌<◌, ◌≤◌, List, map, length, All, IfOk};
ghost use Rattle.std.specs.List.{AllPairs};
ghost use Rattle.circuit_theory.specs.Tree.{Tree};
ghost use Rattle.tree_graph.specs.Rooted.{IsTreeOf, HasTree, entries};
ghost use Rattle.tree_graph.specs.Numbering.{IsOfTrees};
ghost use Rattle.tree_graph.specs.declared.covers.TheConstants.{MOST_NODES};

use crate::starts::{start, table_of};
use crate::walk::make_tree;
use aig::{Aig, Lit, NoMemory};
use flat_net::{Ids, Net, PlaceTable, Signal};
use std::alloc::Global;

/// A signal of a net, with the numbers of the net's inputs.
#[derive(Clone, Copy)]
pub struct Rooted<'a> {
    pub net: &'a Net,
    pub order: &'a Ids,
    pub root: Signal,
}

/// The graph of two trees, and their literals there.
pub struct TreeGraph {
    pub aig: Aig,
    pub left: Lit,
    pub right: Lit,
}

/// It is let go by one call: an owner isn't taken apart field by field at each way out.
impl Drop for TreeGraph {
    fn drop(self) {
        let TreeGraph {
            aig: _,
            left: _,
            right: _,
        } = self;
    }
}

/// The graph of the trees of two signals. `vars` are the numbers in the table of the inputs of both trees, each an input's number and a
/// shift, those of a greater shift first and of one shift by their numbers; then `IsOfTrees` says that it is the graph of the trees.
///
/// `NoMemory` comes where memory was wanted; and where an input isn't in the table, the graph would have more than 2^28 nodes, or a
/// shift would be 2^32 - 1, none of which comes to pass where the unfoldings weigh at most 2,000,000 each.
pub fn graph_of_trees(
    alloc: Global,
    left: &Rooted<'_>,
    right: &Rooted<'_>,
    places: &PlaceTable,
    vars: &[u32],
) -> Result<TreeGraph, NoMemory>
    requires left { HasTree left.now }
    requires right { HasTree right.now }
    requires within { All (λ v. v < length places.now) vars.now }
    requires differ { AllPairs (λ u v. u ≢ v) vars.now }
    ensures graph { IfOk result (λ g. (l r : Tree ℕ) → IsTreeOf left.now l → IsTreeOf right.now r → IsOfTrees l r (entries places.now vars.now) g.aig g.left.0 g.right.0) }
    ensures left { IfOk result (λ g. g.left.0 < 2 * length g.aig) }
    ensures right { IfOk result (λ g. g.right.0 < 2 * length g.aig) }
    ensures few { IfOk result (λ g. length g.aig ≤ MOST_NODES) }
{
    let table = table_of(alloc, places, vars)?;
    let mut aig = start(alloc, table.len())?;
    let l = make_tree(alloc, left, &table, &mut aig)?;
    let r = make_tree(alloc, right, &table, &mut aig)?;
    Ok(TreeGraph {
        aig,
        left: l,
        right: r,
    })
}
