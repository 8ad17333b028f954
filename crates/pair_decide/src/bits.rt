//! The bits of variables, read from values of their nodes.

ghost use Rattle.std.specs.Prelude.{◌≡◌, ◌<◌, length, map, nat_eq, unwrap_or, false, All, IfOk};
ghost use Rattle.std.specs.List.Sorted.{IsStrictlyIncreasing};
ghost use Rattle.indexmap.specs.IndexMap.{get};
ghost use Rattle.pair_decide.specs.Reading.{HasInputBits, AreInputBits};

use crate::cnf_encode::{Bits, NoMemory};
use aig::lane_eval::{Aig, Node};
use indexmap::IndexMap;
use std::alloc::Global;

/// A bit for each variable: its node's value, or 0 where none of the nodes is its.
pub(crate) fn bits_of_vars(
    alloc: Global,
    aig: &Aig,
    nodes: &[u32],
    values: &[bool],
    vars: &[u32],
) -> Result<Bits, NoMemory>
    requires increasing { IsStrictlyIncreasing nodes.now }
    requires within { All (λ n. n < length aig.now) nodes.now }
    requires each { length values.now ≡ length nodes.now }
    ensures { IfOk result (AreInputBits aig.now nodes.now values.now vars.now) }
{
    let found = input_bits(alloc, aig, nodes, values)?;
    bits_by(alloc, &found, vars)
}

/// The bit that is found for each variable, or 0 where there is none.
fn bits_by(alloc: Global, found: &IndexMap<u32, bool>, vars: &[u32]) -> Result<Bits, NoMemory>
    ensures { IfOk result (λ bits. bits ≡ map (λ v. unwrap_or (get nat_eq found.now v) false) vars.now) }
{
    let mut bits = Bits::new(alloc);
    for v in vars {
        bits.push(found.get(v).copied().unwrap_or(false))?;
    }
    Ok(bits)
}

/// The value of each of these nodes that is a variable's, by the variable.
fn input_bits(
    alloc: Global,
    aig: &Aig,
    nodes: &[u32],
    values: &[bool],
) -> Result<IndexMap<u32, bool>, NoMemory>
    requires increasing { IsStrictlyIncreasing nodes.now }
    requires within { All (λ n. n < length aig.now) nodes.now }
    requires each { length values.now ≡ length nodes.now }
    ensures { IfOk result (λ found. HasInputBits aig.now nodes.now values.now (get nat_eq found) (length nodes.now)) }
{
    aig.keeps();
    let mut found = IndexMap::new(alloc);
    for k in 0..nodes.len() {
        if let Node::Input(v) = aig.node(nodes[k]) {
            found.insert(v, values[k])?;
        }
    }
    Ok(found)
}
