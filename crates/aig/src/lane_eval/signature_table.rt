//! The values of all nodes of a graph under 512 assignments.

ghost use Rattle.std.specs.Prelude.{◌≡◌, ◌*◌, ◌<◌, length, [], slice_index_or, IfOk};
ghost use Rattle.aig.specs.Graph.{vars_of};
ghost use Rattle.aig.specs.lane_eval.Signatures.{AreSignatures};

use crate::lane_eval::evaluation::node_blocks;
use crate::lane_eval::variables::word_blocks;
use crate::{Aig, NoMemory};
use std::alloc::Global;
use std::marker::Model;
use std::simd::u64x8;

/// A block for each node of a graph. A contract sees the list of the blocks, each as the list of its words.
#[derive(Drop)]
pub struct SignatureTable {
    blocks: Vec<u64x8>,
}

impl Model for SignatureTable {
    ghost use Rattle.std.specs.Prelude.{ℕ, List};

    ghost Value = { List (List ℕ) };

    ghost view = { λ t. t.blocks.items };
}

impl SignatureTable {
    /// The node's values: bit k is its value under assignment k.
    pub fn block(&self, node: u32) -> [u64; 8]
        requires { node < length self.now }
        ensures { result ≡ slice_index_or self.now node [] }
    {
        self.blocks[node as usize].to_array()
    }
}

/// The value of each node under 512 assignments. Bit k of a variable's eight words is its bit under assignment k.
pub fn signatures(alloc: Global, aig: &Aig, words: &[u64]) -> Result<SignatureTable, NoMemory>
    requires { length words.now ≡ 8 * vars_of aig.now }
    ensures { IfOk result (AreSignatures aig.now words.now) }
{
    let inputs = word_blocks(alloc, words, aig.vars() as usize)?;
    let nodes = aig.nodes();
    let mut blocks = vec![in alloc; u64x8::splat(0); nodes.len()]?;
    node_blocks(nodes, inputs.as_slice(), blocks.as_mut_slice());
    Ok(SignatureTable { blocks })
}
