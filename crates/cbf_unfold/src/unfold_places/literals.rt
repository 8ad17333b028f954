//! The literals of places that an input or a gate drives.

ghost use Rattle.std.specs.Prelude.{◌≡◌, ℕ, ◌+◌, ◌*◌, ◌^◌, ◌<◌, ◌≤◌, length, slice_get, All, Contains, IfOk, IfSome};
ghost use Rattle.std.specs.List.{AllZip};
ghost use Rattle.aig.specs.declared.node.Lit.{Lit};
ghost use Rattle.aig.specs.Graph.{Grows};
ghost use Rattle.flat_net.specs.Weights.{gate_weight};
ghost use Rattle.cbf_unfold.specs.unfold_places.Reach.{IsMet};
ghost use Rattle.cbf_unfold.specs.unfold_places.Growing.{HasGrown};
ghost use Rattle.cbf_unfold.specs.unfold_places.Literals.{IsVariableLit, IsGateLit};

use crate::unfold_places::memo::Memo;
use aig::{Aig, Lit};
use flat_net::{Net, NoMemory, PlaceTable, Signal, gate_of};
use std::alloc::Global;

/// The variable with this number at this shift, or in this cycle.
pub fn variable(
    aig: &mut Aig,
    places: &mut PlaceTable,
    number: u32,
    at: u32,
) -> Result<Lit, NoMemory>
    requires nodes { length aig.old + 1 < 2 ^ 30 }
    requires entries { length places.old + 1 < 2 ^ 32 }
    ensures here { IfOk result (λ x. IsVariableLit number at aig.new places.new x.0) }
    ensures grown { HasGrown aig.old aig.new places.old places.new 1 }
{
    let variable = places.intern(number, at)?;
    aig.input(variable)
}

/// The literal of a latch's place, which is marked: proofs over the graph may end there.
pub fn marked(aig: &mut Aig, lit: Lit) -> Result<Lit, NoMemory>
    ensures same { aig.new ≡ aig.old }
    ensures is { IfOk result (λ x. x ≡ lit) }
{
    aig.mark(lit)?;
    Ok(lit)
}

/// The cover of the gate with this position, in this cycle, of literals of places that were met.
pub fn gate_literal(
    alloc: Global,
    net: &Net,
    memo: &Memo,
    aig: &mut Aig,
    cycle: u32,
    j: u32,
) -> Result<Lit, NoMemory>
    requires gate { j < length net.now.gates }
    requires met { IfSome (slice_get net.now.gates j) (λ g. All (λ f. IsMet memo.now (cycle, f.0)) g.fanins) }
    requires within { (p : ℕ × ℕ) (x : Lit) → Contains memo.now (p, x) → x.0 < 2 * length aig.old }
    requires nodes { length aig.old + gate_weight net.now.covers (slice_get net.now.gates j) < 2 ^ 30 }
    ensures here { IfOk result (λ x. IsGateLit net.now memo.now cycle j aig.new x.0) }
    ensures grows { Grows aig.old aig.new }
    ensures few { length aig.new ≤ length aig.old + gate_weight net.now.covers (slice_get net.now.gates j) }
{
    net.keeps();
    let gate = gate_of(net, j);
    let lits = fanin_literals(alloc, memo, cycle, gate.fanins.as_slice())?;
    aig.cover(net.cover(gate.cover), lits.as_slice())
}

/// The literals of the fan-ins' places in this cycle, which were met.
fn fanin_literals(
    alloc: Global,
    memo: &Memo,
    cycle: u32,
    fanins: &[Signal],
) -> Result<Vec<Lit>, NoMemory>
    requires { All (λ f. IsMet memo.now (cycle, f.0)) fanins.now }
    ensures { IfOk result (λ lits. AllZip (λ f y. Contains memo.now ((cycle, f.0), y)) fanins.now lits.items) }
{
    let mut lits = Vec::with_capacity(alloc, fanins.len())?;
    for fanin in fanins {
        lits.push(memo.met((cycle, fanin.0)))?;
    }
    Ok(lits)
}
