//! The pairs of two circuits with latches cut open, as places among the outputs of the cut circuits.

ghost use Rattle.std.specs.Prelude.{◌≡◌, ◌+◌, ◌<◌, ◌^◌, map, length, IfOk, OnOk};
ghost use Rattle.std.specs.List.{Contains};
ghost use Rattle.base_tables.specs.Table.{AreDistinct};
ghost use Rattle.sec_setup.specs.Matching.{InterfacesMatch};
ghost use Rattle.job_circuit.specs.replay.cut_sides.Pairs.{IsOutputAt, AreOutputsBeside, IsNextAt, PutsNexts, ArePairsAt};

use base_tables::NameTable;
use cycle_sim::pair_runs::OutputPair;
use flat_net::{Net, Port};
use sec_base::NoMemory;
use sec_setup::ports::name_tables::{table_of_ports, word_of};
use std::alloc::Global;
use witness_report::PairName;

/// A's output at this place beside B's output of its name, by the names of B's outputs.
fn output_pair(
    b: &Net,
    names: &NameTable,
    output: &Port,
    place: u32,
) -> Result<OutputPair, NoMemory>
    requires distinct { AreDistinct (map (λ p. p.name) b.now.outputs) }
    requires names { names.now ≡ map (λ p. p.name) b.now.outputs }
    requires there { Contains names.now output.now.name }
    ensures { IfOk result (IsOutputAt b.now place output.now) }
{
    let Some(right) = names.find(output.name.as_slice()) else {
        unreachable!()
    };
    Ok(OutputPair {
        name: PairName::Output(output.name.copy()?),
        left: place,
        right,
    })
}

/// Each output of A beside B's output of its name.
fn output_pairs(alloc: Global, a: &Net, b: &Net) -> Result<Vec<OutputPair>, NoMemory>
    requires matches { InterfacesMatch a.now b.now }
    requires distinct { AreDistinct (map (λ p. p.name) b.now.outputs) }
    requires few { length a.now.outputs < 2 ^ 32 }
    ensures { IfOk result (λ pairs. AreOutputsBeside a.now b.now pairs.items) }
{
    let names = table_of_ports(alloc, b.outputs())?;
    let mut pairs = Vec::new(alloc);
    for (place, output) in a.outputs().iter().enumerate() {
        pairs.push(output_pair(b, &names, output, place as u32)?)?;
    }
    Ok(pairs)
}

/// What the latches of the k-th of these names take over, as the outputs that stand so far behind A's own and B's own.
fn next_pair(
    alloc: Global,
    names: &NameTable,
    k: u32,
    left: u32,
    right: u32,
) -> Result<OutputPair, NoMemory>
    requires place { k < length names.now }
    requires few_left { left + k < 2 ^ 32 }
    requires few_right { right + k < 2 ^ 32 }
    ensures { IfOk result (IsNextAt names.now left right k) }
{
    Ok(OutputPair {
        name: PairName::Next(word_of(alloc, names.name(k))?),
        left: left + k,
        right: right + k,
    })
}

/// Puts the pairs of the latches of these names, which stand behind so many outputs of A's and of B's own.
fn put_nexts(
    alloc: Global,
    names: &NameTable,
    left: u32,
    right: u32,
    pairs: &mut Vec<OutputPair>,
) -> Result<(), NoMemory>
    requires few_left { left + length names.now < 2 ^ 32 }
    requires few_right { right + length names.now < 2 ^ 32 }
    ensures { OnOk result (PutsNexts names.now left right pairs.old.items pairs.new.items) }
{
    for k in 0..names.len() {
        pairs.push(next_pair(alloc, names, k, left, right)?)?;
    }
    Ok(())
}

/// How many outputs the net has; want of memory where their places and so many more aren't all numbers of 32 bits.
fn count_outputs(net: &Net, more: u32) -> Result<u32, NoMemory>
    ensures count { IfOk result (λ count. count ≡ length net.now.outputs) }
    ensures room { IfOk result (λ count. count + more < 2 ^ 32) }
{
    let count = net.outputs().len();
    if count > (u32::MAX - more) as usize {
        return Err(NoMemory);
    }
    Ok(count as u32)
}

/// All pairs: the outputs in A's order, then what the latches of these names take over. Circuits with 2^32 outputs or more, the cut
/// latches among them, answer want of memory.
pub fn pairs_of(
    alloc: Global,
    a: &Net,
    b: &Net,
    opened: &NameTable,
) -> Result<Vec<OutputPair>, NoMemory>
    requires matches { InterfacesMatch a.now b.now }
    requires distinct { AreDistinct (map (λ p. p.name) b.now.outputs) }
    ensures { IfOk result (λ pairs. ArePairsAt a.now b.now opened.now pairs.items) }
{
    let left = count_outputs(a, opened.len())?;
    let right = count_outputs(b, opened.len())?;
    let mut pairs = output_pairs(alloc, a, b)?;
    put_nexts(alloc, opened, left, right, &mut pairs)?;
    Ok(pairs)
}
