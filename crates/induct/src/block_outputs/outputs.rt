//! The pairs of outputs.

ghost use Rattle.std.specs.Prelude.{◌≡◌, ◌<◌, ◌≤◌, None, Some, length, map, IfOk};
ghost use Rattle.std.specs.List.{AllZip, Contains};
ghost use Rattle.circuit_theory.specs.Agree.{place_named};
ghost use Rattle.circuit_theory.specs.Interface.{first_mismatch};
ghost use Rattle.flat_net.specs.Comparable.{IsComparable};
ghost use Rattle.flat_net.specs.View.{circuit_of, ports_of};
ghost use Rattle.block_refine.specs.block_graph.Graph.{IsBlockGraph};
ghost use Rattle.induct.specs.block_outputs.Answers.{IsOutputAnswer};

use crate::block_outputs::answer::{OutputAnswer, answer};
use base_tables::NameTable;
use block_refine::block_graph::{BlockGraph, BlockNets, NetSignal};
use flat_net::{Net, Port, Signal};
use sec_base::{MAX_CONFLICTS, NoMemory, Seq, Word};
use sec_setup::ports::output_names;
use std::alloc::Global;

/// An output of A with B's output of its name.
#[derive(Drop)]
pub struct OutputPair {
    pub name: Word,
    pub answer: OutputAnswer,
}

/// Pairs in the order of A's outputs.
pub type OutputPairs = Seq<OutputPair>;

/// Each output of A against B's output of its name, with at most so many conflicts for each query.
pub fn compare_outputs(
    alloc: Global,
    nets: &BlockNets<'_>,
    graph: &BlockGraph,
    conflicts: u32,
) -> Result<OutputPairs, NoMemory>
    requires graph { IsBlockGraph nets.now graph.now }
    requires matches { first_mismatch (ports_of nets.now.left.now) (ports_of nets.now.right.now) ≡ None }
    requires right { IsComparable nets.now.right.now }
    requires conflicts { conflicts ≤ MAX_CONFLICTS }
    ensures { IfOk result (AllZip (IsOutputAnswer nets.now graph.now conflicts) nets.now.left.now.outputs) }
{
    nets.left.keeps();
    let names = output_names(alloc, nets.right.outputs())?;
    let mut pairs = OutputPairs::new(alloc);
    for output in nets.left.outputs() {
        pairs.push(output_pair(alloc, nets, graph, &names, output, conflicts)?)?;
    }
    Ok(pairs)
}

/// An output of A against B's output of its name, by the names of B's outputs.
fn output_pair(
    alloc: Global,
    nets: &BlockNets<'_>,
    graph: &BlockGraph,
    names: &NameTable,
    output: &Port,
    conflicts: u32,
) -> Result<OutputPair, NoMemory>
    requires graph { IsBlockGraph nets.now graph.now }
    requires right { IsComparable nets.now.right.now }
    requires names { names.now ≡ map (λ p. p.name) nets.now.right.now.outputs }
    requires there { Contains names.now output.now.name }
    requires signal { output.now.signal.0 < length nets.now.left.now.drivers }
    requires conflicts { conflicts ≤ MAX_CONFLICTS }
    ensures { IfOk result (IsOutputAnswer nets.now graph.now conflicts output.now) }
{
    let left = NetSignal::Left(output.signal);
    let right = NetSignal::Right(output_named(nets.right, names, output.name.as_slice()));
    let name = output.name.copy()?;
    let answer = answer(alloc, nets, graph, left, right, conflicts)?;
    Ok(OutputPair { name, answer })
}

/// The signal of the output of this name, by the names of all outputs.
fn output_named(net: &Net, names: &NameTable, name: &[u8]) -> Signal
    requires net { IsComparable net.now }
    requires names { names.now ≡ map (λ p. p.name) net.now.outputs }
    requires there { Contains names.now name.now }
    ensures named { place_named (circuit_of net.now).outputs name.now ≡ Some result.0 }
    ensures signal { result.0 < length net.now.drivers }
{
    net.keeps();
    let Some(place) = names.find(name) else {
        unreachable!()
    };
    net.outputs()[place as usize].signal
}
