//! The pairs that are compared: outputs of one name, and what latches of one name take over.

ghost use Rattle.std.specs.Prelude.{◌≡◌, ◌<◌, ◌≤◌, ◌^◌, map, None, length, slice_get, IfOk, IfSome, All};
ghost use Rattle.std.specs.List.{AllZip, Contains};
ghost use Rattle.circuit_theory.specs.Interface.{first_mismatch};
ghost use Rattle.flat_net.specs.Table.{AreDistinct};
ghost use Rattle.flat_net.specs.Cut.{latch_at};
ghost use Rattle.flat_net.specs.View.{ports_of};
ghost use Rattle.flat_net.specs.Comparable.{IsComparable};
ghost use Rattle.sec_setup.specs.ports.Pairing.{AreNamedAt, IsOutputPair, IsNextPairAt, ArePairs};

use crate::ports::name_tables::table_of_ports;
use flat_net::{Ids, NameTable, Net, NoMemory, Port, Seq, Signal, Words};
use std::alloc::Global;
use witness_report::PairName;

/// Two signals that are compared, one of each circuit, and what the pair is called.
#[derive(Drop)]
pub struct SignalPair {
    pub name: PairName,
    pub left: Signal,
    pub right: Signal,
}

/// Pairs, in order.
pub type SignalPairs = Seq<SignalPair>;

/// Each output of A beside B's output of its name, then what the latches of these names take over, which stand at these
/// positions in A and in B.
pub fn pairs_of(
    alloc: Global,
    a: &Net,
    b: &Net,
    names: &Words,
    left: &Ids,
    right: &Ids,
) -> Result<SignalPairs, NoMemory>
    requires matches { first_mismatch (ports_of a.now) (ports_of b.now) ≡ None }
    requires right { IsComparable b.now }
    requires left_named { AreNamedAt a.now names.now left.now }
    requires right_named { AreNamedAt b.now names.now right.now }
    ensures { IfOk result (ArePairs a.now b.now names.now left.now right.now) }
{
    let mut pairs = output_pairs(alloc, a, b)?;
    for k in 0..names.len() {
        pairs.push(next_pair(a, b, names, left, right, k)?)?;
    }
    Ok(pairs)
}

/// Each output of A beside B's output of its name.
fn output_pairs(alloc: Global, a: &Net, b: &Net) -> Result<SignalPairs, NoMemory>
    requires matches { first_mismatch (ports_of a.now) (ports_of b.now) ≡ None }
    requires right { IsComparable b.now }
    ensures { IfOk result (AllZip (IsOutputPair b.now) a.now.outputs) }
{
    let names = output_names(alloc, b.outputs())?;
    let mut pairs = SignalPairs::new(alloc);
    for output in a.outputs() {
        pairs.push(output_pair(b, &names, output)?)?;
    }
    Ok(pairs)
}

/// An output of A beside B's output of its name, by the names of B's outputs.
fn output_pair(b: &Net, names: &NameTable, output: &Port) -> Result<SignalPair, NoMemory>
    requires right { IsComparable b.now }
    requires names { names.now ≡ map (λ p. p.name) b.now.outputs }
    requires there { Contains names.now output.now.name }
    ensures { IfOk result (IsOutputPair b.now output.now) }
{
    let Some(place) = names.find(output.name.as_slice()) else {
        unreachable!()
    };
    Ok(SignalPair {
        name: PairName::Output(output.name.copy()?),
        left: output.signal,
        right: b.outputs()[place as usize].signal,
    })
}

/// What the k-th of these latches takes over in A and in B.
fn next_pair(
    a: &Net,
    b: &Net,
    names: &Words,
    left: &Ids,
    right: &Ids,
    k: usize,
) -> Result<SignalPair, NoMemory>
    requires place { k < length names.now }
    requires left_named { AreNamedAt a.now names.now left.now }
    requires right_named { AreNamedAt b.now names.now right.now }
    ensures { IfOk result (IsNextPairAt a.now b.now names.now left.now right.now k) }
{
    Ok(SignalPair {
        name: PairName::Next(names.as_slice()[k].copy()?),
        left: next_at(a, left, k),
        right: next_at(b, right, k),
    })
}

/// What the latch at the k-th of these positions takes over.
fn next_at(net: &Net, positions: &Ids, k: usize) -> Signal
    requires place { k < length positions.now }
    requires within { All (λ j. j < length net.now.latches) positions.now }
    ensures { IfSome (slice_get positions.now k) (λ j. result ≡ (latch_at net.now j).next) }
{
    net.latches()[positions.as_slice()[k] as usize].next
}

/// The table of the names of outputs, each at its place.
pub fn output_names(alloc: Global, outputs: &[Port]) -> Result<NameTable, NoMemory>
    requires distinct { AreDistinct (map (λ p. p.name) outputs.now) }
    requires few { length outputs.now ≤ 2 ^ 27 }
    ensures { IfOk result (λ table. table ≡ map (λ p. p.name) outputs.now) }
{
    table_of_ports(alloc, outputs)
}
