//! What is assumed of each cycle.

ghost use Rattle.std.specs.Prelude.{◌≡◌, ℕ, Bool, true, ◌*◌, ◌<◌, length, All, IfOk, OnOk};
ghost use Rattle.aig.specs.Graph.{Grows};
ghost use Rattle.aig.specs.Values.{value};
ghost use Rattle.signal_refine.specs.Assuming.{Holds, ArePicked};
ghost use Rattle.signal_refine.specs.Copies.{HaveAt};

use crate::copies::{copy_of, leaf_at, read_literal};
use crate::leaves::is_full;
use aig::{Aig, Lit};
use sec_base::NoMemory;
use std::alloc::Global;
use tie_candidates::Premise;

/// What is assumed of the inputs in each cycle: that a literal of a graph is 1, each of whose variables is the input with its number here.
#[derive(Clone, Copy)]
pub struct Assumed<'a> {
    pub graph: &'a Aig,
    pub lit: Lit,
    pub numbers: &'a [u32],
    /// Bits of the inputs by their numbers that make it 1, as a guess.
    pub row: &'a [bool],
}

impl<'a> Assumed<'a> {
    /// As guesses see it.
    pub(crate) fn premise(&self) -> Premise<'a> {
        Premise {
            graph: self.graph,
            lit: self.lit,
            numbers: self.numbers,
            row: self.row,
        }
    }
}

/// The literal that is 1 where the assumption is met, where inputs have these literals by their numbers.
pub(crate) fn met_literal(
    alloc: Global,
    aig: &mut Aig,
    assumed: &Assumed<'_>,
    leaves: &[Lit],
) -> Result<Lit, NoMemory>
    requires lit { assumed.now.lit.0 < 2 * length assumed.now.graph.now }
    requires leaves { All (λ x. x.0 < 2 * length aig.old) leaves.now }
    ensures value { IfOk result (λ x. (a c : ℕ → Bool) → HaveAt c aig.old a leaves.now → Holds assumed.now c → value aig.new a x.0 ≡ true) }
    ensures within { IfOk result (λ x. x.0 < 2 * length aig.new) }
    ensures grows { OnOk result (Grows aig.old aig.new) }
{
    let own = picked(alloc, leaves, assumed.numbers)?;
    let copy = copy_of(alloc, aig, assumed.graph, &own, &[])?;
    Ok(read_literal(&copy.own, assumed.lit))
}

/// The literals of the variables with these numbers.
fn picked(alloc: Global, leaves: &[Lit], numbers: &[u32]) -> Result<Vec<Lit>, NoMemory>
    ensures { IfOk result (λ made. ArePicked leaves.now numbers.now (length numbers.now) made.items) }
{
    let mut made = Vec::new(alloc);
    for i in 0..numbers.len() {
        made.push(leaf_at(leaves, numbers[i])?)?;
    }
    Ok(made)
}

/// The literal that is 1 where both are.
pub(crate) fn and_both(aig: &mut Aig, l: Lit, r: Lit) -> Result<Lit, NoMemory>
    requires left { l.0 < 2 * length aig.old }
    requires right { r.0 < 2 * length aig.old }
    ensures value { IfOk result (λ x. (a : ℕ → Bool) → value aig.old a l.0 ≡ true → value aig.old a r.0 ≡ true → value aig.new a x.0 ≡ true) }
    ensures within { IfOk result (λ x. x.0 < 2 * length aig.new) }
    ensures grows { OnOk result (Grows aig.old aig.new) }
{
    if is_full(aig) {
        return Err(NoMemory);
    }
    aig.and(l, r)
}
