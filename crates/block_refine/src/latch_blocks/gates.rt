//! The literal of a gate.

ghost use Rattle.std.specs.Prelude.{◌≡◌, ◌+◌, ◌*◌, ◌^◌, ◌<◌, ◌≤◌, length, map, slice_get, All, IfOk, IfSome};
ghost use Rattle.aig.specs.Graph.{Grows};
ghost use Rattle.flat_net.specs.Weights.{gate_weight};
ghost use Rattle.block_refine.specs.latch_blocks.Signals.{lit_at, IsGateLit};

use aig::{Aig, Lit};
use flat_net::{Net, Signal, gate_of};
use sec_base::NoMemory;
use std::alloc::Global;

/// The cover of the gate with this number, of the literals of its fan-ins.
pub fn gate_literal(
    alloc: Global,
    aig: &mut Aig,
    net: &Net,
    lits: &[Lit],
    j: u32,
) -> Result<Lit, NoMemory>
    requires gate { j < length net.now.gates }
    requires known { IfSome (slice_get net.now.gates j) (λ g. All (λ f. f.0 < length lits.now) g.fanins) }
    requires within { All (λ x. x.0 < 2 * length aig.old) lits.now }
    requires room { length aig.old + gate_weight net.now.covers (slice_get net.now.gates j) < 2 ^ 30 }
    ensures here { IfOk result (IsGateLit net.now j lits.now aig.old aig.new) }
    ensures grows { Grows aig.old aig.new }
    ensures few { length aig.new ≤ length aig.old + gate_weight net.now.covers (slice_get net.now.gates j) }
{
    net.keeps();
    let gate = gate_of(net, j);
    let fanins = fanin_literals(alloc, lits, gate.fanins.as_slice())?;
    let lit = aig.cover(net.cover(gate.cover), fanins.as_slice())?;
    Ok(lit)
}

/// The literals of the fan-ins.
fn fanin_literals(alloc: Global, lits: &[Lit], fanins: &[Signal]) -> Result<Vec<Lit>, NoMemory>
    requires { All (λ f. f.0 < length lits.now) fanins.now }
    ensures { IfOk result (λ found. found.items ≡ map (λ f. lit_at lits.now f.0) fanins.now) }
{
    let mut found = Vec::with_capacity(alloc, fanins.len())?;
    for fanin in fanins {
        found.push(lits[fanin.0 as usize])?;
    }
    Ok(found)
}
