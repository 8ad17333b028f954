//! The graph of both nets.

ghost use Rattle.std.specs.Prelude.{◌≡◌, ◌+◌, ◌^◌, ◌<◌, ◌≤◌, length, map, All, IfOk, OnOk};
ghost use Rattle.aig.specs.Graph.{Grows};
ghost use Rattle.block_refine.specs.declared.latch_blocks.variables.Variables.{Variables};
ghost use Rattle.block_refine.specs.latch_blocks.Signals.{AreVariables, net_weight};
ghost use Rattle.block_refine.specs.block_graph.Graph.{AreReady, AreOn, IsBlockGraph};

use crate::block_graph::nets::BlockNets;
use crate::block_graph::numbering::{first_block, variables_of};
use crate::latch_blocks::{Variables, signal_literals};
use aig::{Aig, Lit};
use flat_net::Net;
use sec_base::{Ids, NoMemory};
use std::alloc::Global;

/// The variables of a net's inputs and latches, and the literal of each signal.
pub struct NetLits {
    pub variables: Variables,
    pub lits: Vec<Lit>,
}

/// It is let go by one call: an owner isn't taken apart field by field at each way out.
impl Drop for NetLits {
    fn drop(self) {
        let NetLits {
            variables: _,
            lits: _,
        } = self;
    }
}

/// Two nets on one graph. All variables are below the limit.
pub struct BlockGraph {
    pub aig: Aig,
    pub left: NetLits,
    pub right: NetLits,
    pub limit: u32,
}

/// It is let go by one call: an owner isn't taken apart field by field at each way out.
impl Drop for BlockGraph {
    fn drop(self) {
        let BlockGraph {
            aig: _,
            left: _,
            right: _,
            limit: _,
        } = self;
    }
}

impl BlockGraph {
    /// Puts all signals of both nets on one graph.
    pub fn new(alloc: Global, nets: &BlockNets<'_>) -> Result<BlockGraph, NoMemory>
        requires { AreReady nets.now }
        ensures { IfOk result (IsBlockGraph nets.now) }
    {
        nets.left.keeps();
        nets.right.keeps();
        let first = first_block(nets.orders);
        let count = nets.left.latches().len();
        let mut aig = Aig::new(alloc)?;
        let left = net_lits(
            alloc,
            &mut aig,
            nets.left,
            &nets.orders.left,
            &nets.blocks[..count],
            first,
        )?;
        aig.keeps();
        let right = net_lits(
            alloc,
            &mut aig,
            nets.right,
            &nets.orders.right,
            &nets.blocks[count..],
            first,
        )?;
        aig.keeps();
        let limit = first + nets.blocks.len() as u32;
        Ok(BlockGraph {
            aig,
            left,
            right,
            limit,
        })
    }
}

/// The literals of all signals of a net whose inputs have these numbers and whose latches are in these blocks, the first of which has the
/// variable `first`.
fn net_lits(
    alloc: Global,
    aig: &mut Aig,
    net: &Net,
    numbers: &Ids,
    blocks: &[u32],
    first: u32,
) -> Result<NetLits, NoMemory>
    requires small { All (λ k. first + k < 2 ^ 32) blocks.now }
    requires variables { (w : Variables) → w.inputs ≡ numbers.now → w.latches ≡ map (λ k. first + k) blocks.now → AreVariables net.now w }
    requires room { length aig.old + net_weight net.now < 2 ^ 30 }
    ensures on { IfOk result (AreOn net.now aig.new) }
    ensures inputs { IfOk result (λ made. made.variables.inputs ≡ numbers.now) }
    ensures latches { IfOk result (λ made. made.variables.latches ≡ map (λ k. first + k) blocks.now) }
    ensures grows { OnOk result (Grows aig.old aig.new) }
    ensures few { OnOk result (length aig.new ≤ length aig.old + net_weight net.now) }
{
    let variables = variables_of(alloc, numbers, blocks, first)?;
    let lits = signal_literals(alloc, aig, net, &variables)?;
    Ok(NetLits { variables, lits })
}
