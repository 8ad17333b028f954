//! The outputs of two nets, by what their signals are tied to.

ghost use Rattle.std.specs.Prelude.{◌≡◌, None, map, IfOk, option_map};
ghost use Rattle.std.specs.List.{AllZip};
ghost use Rattle.circuit_theory.specs.Interface.{first_mismatch};
ghost use Rattle.flat_net.specs.Comparable.{IsComparable};
ghost use Rattle.flat_net.specs.View.{ports_of};
ghost use Rattle.sec_setup.specs.ports.Pairing.{IsOutputPair};
ghost use Rattle.signal_induct.specs.Tied.{name_of, tied_pair};

use crate::ties::{anchor_at, same_anchor};
use circuit_laws::signal_laws::Anchor;
use flat_net::Net;
use sec_base::{Ids, NoMemory, Seq, Word, Words};
use sec_setup::ports::{SignalPair, SignalPairs, pairs_of};
use std::alloc::Global;
use witness_report::PairName;

/// An output of both circuits.
#[derive(Drop)]
pub struct TiedPair {
    pub name: Word,
    /// Whether A's signal and B's are tied to one signal or bit, so that they are equal in each cycle of runs from the initial values.
    pub equal: bool,
}

/// Pairs in the order of A's outputs.
pub type TiedPairs = Seq<TiedPair>;

/// Each output of A beside B's output of its name.
pub(crate) fn output_pairs(alloc: Global, a: &Net, b: &Net) -> Result<SignalPairs, NoMemory>
    requires matches { first_mismatch (ports_of a.now) (ports_of b.now) ≡ None }
    requires right { IsComparable b.now }
    ensures { IfOk result (AllZip (IsOutputPair b.now) a.now.outputs) }
{
    let names = Words::new(alloc);
    let left = Ids::new(alloc);
    let right = Ids::new(alloc);
    let pairs = pairs_of(alloc, a, b, &names, &left, &right)?;
    Ok(pairs)
}

/// The pairs, by what their signals are tied to, where A has so many signals.
pub(crate) fn tied_pairs(
    alloc: Global,
    size: u32,
    anchors: &[Anchor],
    pairs: SignalPairs,
) -> Result<TiedPairs, NoMemory>
    ensures { IfOk result (λ made. made ≡ map (tied_pair size anchors.now) pairs) }
{
    let mut made = TiedPairs::new(alloc);
    for pair in pairs.into_vec() {
        made.push(tied_pair(size, anchors, pair))?;
    }
    Ok(made)
}

fn tied_pair(size: u32, anchors: &[Anchor], pair: SignalPair) -> TiedPair
    ensures { result ≡ tied_pair size anchors.now pair }
{
    let left = anchor_at(anchors, pair.left.0 as usize);
    let right = anchor_at(anchors, size as usize + pair.right.0 as usize);
    let SignalPair { name, .. } = pair;
    TiedPair {
        name: name_of(name),
        equal: same_anchor(left, right),
    }
}

/// The name of the outputs.
fn name_of(name: PairName) -> Word
    ensures { result ≡ name_of name }
{
    match name {
        PairName::Output(word) => word,
        PairName::Next(word) => word,
    }
}

/// The name of the first output that isn't shown equal.
pub fn first_apart(pairs: &[TiedPair]) -> Option<&Word>
    ensures { option_map (λ name. name.now) result ≡ Rattle.signal_induct.specs.Tied.first_apart pairs.now }
{
    for pair in pairs {
        let apart = !pair.equal;
        if apart {
            return Some(&pair.name);
        }
    }
    None
}

/// How many outputs are shown equal.
pub(crate) fn equal_count(pairs: &[TiedPair]) -> usize {
    let mut count = 0usize;
    for pair in pairs {
        if pair.equal {
            count = count.saturating_add(1);
        }
    }
    count
}
