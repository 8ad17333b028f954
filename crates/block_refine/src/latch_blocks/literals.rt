//! The literals of all signals.

ghost use Rattle.std.specs.Prelude.{◌≡◌, ℕ, ◌+◌, ◌^◌, ◌<◌, ◌≤◌, List, length, Some, IfOk, OnOk};
ghost use Rattle.flat_net.specs.View.{NetView};
ghost use Rattle.aig.specs.Graph.{Grows};
ghost use Rattle.flat_net.specs.Weights.{weight_at};
ghost use Rattle.block_refine.specs.latch_blocks.Signals.{AreVariables, AreSignalLits, IsSignalLit, net_weight, variable_at};

use crate::latch_blocks::gates::gate_literal;
use crate::latch_blocks::variables::{Variables, variable_in};
use aig::{Aig, Lit};
use flat_net::{Driver, Net, Signal};
use sec_base::NoMemory;
use std::alloc::Global;

/// The literal of each signal of the net, in their order. No more nodes are made than the net weighs. After `NoMemory` the graph may have
/// grown, by as many at most.
pub fn signal_literals(
    alloc: Global,
    aig: &mut Aig,
    net: &Net,
    variables: &Variables,
) -> Result<Vec<Lit>, NoMemory>
    requires variables { AreVariables net.now variables.now }
    requires room { length aig.old + net_weight net.now < 2 ^ 30 }
    ensures each { IfOk result (λ lits. length lits.items ≡ length net.now.drivers) }
    ensures lits { IfOk result (λ lits. AreSignalLits net.now variables.now aig.new lits.items) }
    ensures grows { Grows aig.old aig.new }
    ensures few { length aig.new ≤ length aig.old + net_weight net.now }
{
    let mut lits = Vec::new(alloc);
    for s in 0..net.size() {
        let lit = literal(alloc, aig, net, variables, &lits, Signal(s))?;
        lits.push(lit)?;
    }
    Ok(lits)
}

/// The literal of the signal, where those before have theirs.
fn literal(
    alloc: Global,
    aig: &mut Aig,
    net: &Net,
    variables: &Variables,
    lits: &[Lit],
    s: Signal,
) -> Result<Lit, NoMemory>
    requires signal { s.0 < length net.now.drivers }
    requires variables { AreVariables net.now variables.now }
    requires before { length lits.now ≡ s.0 }
    requires lits { AreSignalLits net.now variables.now aig.old lits.now }
    requires room { length aig.old + weight_at net.now s.0 < 2 ^ 30 }
    ensures here { IfOk result (IsSignalLit net.now variables.now aig.new s.0) }
    ensures stay { OnOk result (AreSignalLits net.now variables.now aig.new lits.now) }
    ensures grows { Grows aig.old aig.new }
    ensures few { length aig.new ≤ length aig.old + weight_at net.now s.0 }
{
    net.keeps();
    match net.driver(s) {
        Driver::Input(i) => variable_literal(aig, variable_in(&variables.inputs, i)),
        Driver::Latch(j) => variable_literal(aig, variable_in(&variables.latches, j)),
        Driver::Gate(j) => {
            aig.keeps();
            let lit = gate_literal(alloc, aig, net, lits, j)?;
            aig.keeps();
            Ok(lit)
        }
    }
}

/// The literal of a variable.
fn variable_literal(aig: &mut Aig, variable: u32) -> Result<Lit, NoMemory>
    requires small { variable + 1 < 2 ^ 32 }
    requires room { length aig.old + 1 < 2 ^ 30 }
    ensures here { IfOk result (λ x. (n : NetView) (w : Variables) (s : ℕ) → variable_at n w s ≡ Some variable → IsSignalLit n w aig.new s x) }
    ensures stay { OnOk result ((n : NetView) (w : Variables) (lits : List Lit) → AreSignalLits n w aig.old lits → AreSignalLits n w aig.new lits) }
    ensures grows { Grows aig.old aig.new }
    ensures few { length aig.new ≤ length aig.old + 1 }
{
    aig.keeps();
    let lit = aig.input(variable)?;
    aig.keeps();
    Ok(lit)
}
