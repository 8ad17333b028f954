//! The blocks of a graph's nodes.

ghost use Rattle.std.specs.Prelude.{◌≡◌, ℕ, ◌*◌, ◌<◌, ◌≤◌, ◌&&◌, [], ◌∷◌, length, All};
ghost use Rattle.aig.specs.Graph.{vars_of, IsOrdered, IsAbove};
ghost use Rattle.aig.specs.Values.{lit_bit, node_bit, node_bits, assigned};
ghost use Rattle.aig.specs.lane_eval.Blocks.{block_bit, lane, IsBlock};

use crate::lane_eval::blocks::and_block;
use crate::{Lit, Node};
use std::simd::u64x8;

/// Fills the places with the block of each of these nodes, whose operands are literals of earlier places in the list.
/// Place v of the inputs is variable v's block.
pub(crate) fn node_blocks(nodes: &[Node], inputs: &[u64x8], blocks: &mut [u64x8])
    requires ordered { IsOrdered nodes.now }
    requires covers { vars_of nodes.now ≤ length inputs.now }
    requires inputs { All IsBlock inputs.now }
    requires places { length blocks.old ≡ length nodes.now }
    ensures each { length blocks.new ≡ length nodes.now }
    ensures blocks { All IsBlock blocks.new }
    ensures bits { (k : ℕ) → k < 512 → lane k blocks.new ≡ node_bits nodes.now (assigned (lane k inputs.now)) }
{
    for n in 0..nodes.len() {
        blocks[n] = node_block(nodes[n], inputs, &blocks[..n]);
    }
}

/// The block of a node whose operands have these blocks.
fn node_block(node: Node, inputs: &[u64x8], blocks: &[u64x8]) -> u64x8
    requires above { IsAbove (length blocks.now) node }
    requires covers { vars_of (node ∷ []) ≤ length inputs.now }
    requires inputs { All IsBlock inputs.now }
    requires blocks { All IsBlock blocks.now }
    ensures block { IsBlock result }
    ensures bits { (k : ℕ) → k < 512 → block_bit result k ≡ node_bit (assigned (lane k inputs.now)) (lane k blocks.now) node }
{
    match node {
        Node::Constant => u64x8::splat(0),
        Node::Input(v) => inputs[v as usize],
        Node::And(l, r) => and_lits(blocks, l, r),
    }
}

/// The and of two literals' blocks.
pub(crate) fn and_lits(blocks: &[u64x8], l: Lit, r: Lit) -> u64x8
    requires left { l.0 < 2 * length blocks.now }
    requires right { r.0 < 2 * length blocks.now }
    requires blocks { All IsBlock blocks.now }
    ensures block { IsBlock result }
    ensures bits { (k : ℕ) → k < 512 → block_bit result k ≡ (lit_bit (lane k blocks.now) l.0 && lit_bit (lane k blocks.now) r.0) }
{
    let left = blocks[(l.0 / 2) as usize];
    let right = blocks[(r.0 / 2) as usize];
    and_block(left, right, l.0 % 2 == 1, r.0 % 2 == 1)
}
