//! Graphs over the places of some variables in the place of the variables themselves.

ghost use Rattle.std.specs.Prelude.{◌≡◌, ℕ, ◌≤◌, length, slice_get, Some, Contains, IfOk};
ghost use Rattle.std.specs.List.{AllZip};
ghost use Rattle.aig.specs.lane_eval.Renaming.{AreCovered, IsCovered, IsRenamed};

use crate::{NoMemory, Node};
use std::alloc::Global;

/// The nodes, each variable being its place in the list.
pub(crate) fn renamed(alloc: Global, nodes: &[Node], vars: &[u32]) -> Result<Vec<Node>, NoMemory>
    requires few { length vars.now ≤ 24 }
    requires covered { AreCovered vars.now nodes.now }
    ensures { IfOk result (λ new. AllZip (IsRenamed vars.now) nodes.now new.items) }
{
    let mut new = Vec::new(alloc);
    for node in nodes {
        new.push(renamed_node(*node, vars))?;
    }
    Ok(new)
}

fn renamed_node(node: Node, vars: &[u32]) -> Node
    requires few { length vars.now ≤ 24 }
    requires covered { IsCovered vars.now node }
    ensures { IsRenamed vars.now node result }
{
    match node {
        Node::Input(v) => Node::Input(place(vars, v)),
        other => other,
    }
}

/// The variable's place in the list.
fn place(vars: &[u32], v: u32) -> u32
    requires few { length vars.now ≤ 24 }
    requires there { Contains vars.now v }
    ensures { slice_get vars.now result ≡ Some v }
{
    for i in 0..vars.len() {
        if vars[i] == v {
            return i as u32;
        }
    }
    unreachable!()
}
