//! The variables of a graph.

ghost use Rattle.std.specs.Prelude.{◌≡◌, IfOk};
ghost use Rattle.aig.specs.lane_eval.root_classes.Inputs.{inputs_of};

use crate::{Aig, Ids, NoMemory, Node};
use std::alloc::Global;

/// The variables that have a node, in the order of the nodes.
pub fn variables(alloc: Global, graph: &Aig) -> Result<Ids, NoMemory>
    ensures { IfOk result (λ vars. vars ≡ inputs_of graph.now) }
{
    let nodes = graph.nodes();
    let mut vars = Vec::new(alloc);
    for n in 0..nodes.len() {
        if let Node::Input(v) = nodes[n] {
            vars.push(v)?;
        }
    }
    Ok(Ids::from_vec(vars))
}
