//! What all latches take over under an assignment.

ghost use Rattle.std.specs.Prelude.{◌≡◌, ℕ, Bool, ◌*◌, ◌+◌, ◌<◌, ◌≤◌, ◌++◌, length, map, All, IfOk, OnOk};
ghost use Rattle.std.specs.List.Sorted.{IsStrictlyIncreasing};
ghost use Rattle.circuit_theory.specs.Joined.{Either};
ghost use Rattle.aig.specs.Values as meaning;
ghost use Rattle.pair_decide.specs.Queries.{assigned_to};
ghost use Rattle.block_refine.specs.latch_blocks.Partitions.{nexts_of};
ghost use Rattle.block_refine.specs.latch_blocks.Signals.{lit_at};
ghost use Rattle.block_refine.specs.block_graph.Graph.{IsBlockGraph};
ghost use Rattle.block_refine.specs.block_graph.Comparing.{AreReadBy};

use crate::block_graph::graph::BlockGraph;
use crate::block_graph::nets::BlockNets;
use aig::{Lit, node_bits};
use cbf_unfold::shift_variables::bits_at;
use flat_net::LatchAt;
use sec_base::NoMemory;
use std::alloc::Global;

impl BlockGraph {
    /// What all latches take over, A's first, where the variables have these bits and all others 0.
    pub fn next_bits(
        &self,
        alloc: Global,
        nets: &BlockNets<'_>,
        vars: &[u32],
        bits: &[bool],
    ) -> Result<Vec<bool>, NoMemory>
        requires graph { IsBlockGraph nets.now self.now }
        requires each { length vars.now ≡ length bits.now }
        requires increasing { IsStrictlyIncreasing vars.now }
        requires below { All (λ k. k < self.now.limit) vars.now }
        ensures { IfOk result (λ made. (x : Either ℕ ℕ → Bool) → AreReadBy nets.now self.now (assigned_to vars.now bits.now) x → made.items ≡ map x (nexts_of nets.now.left.now nets.now.right.now)) }
    {
        nets.left.keeps();
        nets.right.keeps();
        self.aig.keeps();
        let values = self.node_values(alloc, vars, bits)?;
        let mut made = Vec::new(alloc);
        put_nexts(&mut made, nets.left.latches(), &self.left.lits, &values)?;
        put_nexts(&mut made, nets.right.latches(), &self.right.lits, &values)?;
        Ok(made)
    }

    /// The value of each node, where the variables have these bits and all others 0.
    fn node_values(&self, alloc: Global, vars: &[u32], bits: &[bool]) -> Result<Vec<bool>, NoMemory>
        requires each { length vars.now ≡ length bits.now }
        requires increasing { IsStrictlyIncreasing vars.now }
        requires below { All (λ k. k < self.now.limit) vars.now }
        ensures { IfOk result (λ values. values.items ≡ meaning.node_bits self.now.aig (assigned_to vars.now bits.now)) }
    {
        let size = self.aig.vars().max(self.limit);
        let assignment = bits_at(alloc, size as usize, vars, bits)?;
        let nodes = self.aig.nodes();
        let mut values = vec![in alloc; false; nodes.len()]?;
        node_bits(nodes, assignment.as_slice(), values.as_mut_slice());
        Ok(values)
    }
}

/// Puts what each of these latches takes over, where the nodes have these values.
fn put_nexts(
    made: &mut Vec<bool>,
    latches: &[LatchAt],
    lits: &[Lit],
    values: &[bool],
) -> Result<(), NoMemory>
    requires latches { All (λ l. l.next.0 < length lits.now) latches.now }
    requires lits { All (λ x. x.0 < 2 * length values.now) lits.now }
    ensures { OnOk result (made.new.items ≡ made.old.items ++ map (λ l. meaning.lit_bit values.now (lit_at lits.now l.next.0).0) latches.now) }
{
    for latch in latches {
        made.push(lit_bit(values, lits[latch.next.0 as usize]))?;
    }
    Ok(())
}

/// The literal's value, where the nodes have these values.
#[tactic(auto, unfolding(aig::specs::Values::lit_bit))]
fn lit_bit(values: &[bool], l: Lit) -> bool
    requires { l.0 < 2 * length values.now }
    ensures { result ≡ meaning.lit_bit values.now l.0 }
{
    let bit = values[l.node() as usize];
    if l.is_complement() { !bit } else { bit }
}
