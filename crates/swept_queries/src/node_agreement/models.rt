//! Assignments that tell two literals apart.

ghost use Rattle.std.specs.Prelude.{◌≡◌, ℕ, ◌++◌, [], ◌∷◌, slice_get, Some, IfOk, IfSome, IsTrue};
ghost use Rattle.aig.specs.declared.node.Node.TheVariants.{Input};
ghost use Rattle.swept_queries.specs.node_agreement.Answers.{IsModelOf};

use aig::lane_eval::root_classes::{Aig, Bits, NoMemory, Node};
use std::alloc::Global;
use sweep_candidates::Model;

/// The model that gives the variables of these nodes these bits, if each of the nodes is a variable's. So what differs over a cut is a
/// model only where the cut's leaves are variables.
pub(crate) fn model_of(
    alloc: Global,
    graph: &Aig,
    nodes: &[u32],
    bits: Bits,
) -> Result<Option<Model>, NoMemory>
    ensures { IfOk result (λ found. IfSome found (IsModelOf graph.now nodes.now bits)) }
{
    let mut vars = Vec::new(alloc);
    for i in 0..nodes.len() {
        let put = put_variable(&mut vars, graph, nodes[i])?;
        if !put {
            return Ok(None);
        }
    }
    Ok(Some(Model {
        vars,
        bits: bits.into_vec(),
    }))
}

/// Puts the node's variable behind the others, if it is one's.
fn put_variable(vars: &mut Vec<u32>, graph: &Aig, n: u32) -> Result<bool, NoMemory>
    ensures { IfOk result (λ put. IsTrue put → (v : ℕ) × (slice_get graph.now n ≡ Some (Input v)) × (vars.new.items ≡ vars.old.items ++ v ∷ [])) }
{
    if n >= graph.size() {
        return Ok(false);
    }
    match graph.node(n) {
        Node::Input(v) => {
            vars.push(v)?;
            Ok(true)
        }
        _ => Ok(false),
    }
}
