//! What nodes that read latches alone have in the next cycle, as nodes of the same graph. Which nodes a graph has is a guess: what is tied is
//! proved.

ghost use Rattle.std.specs.Prelude.{◌*◌, ◌<◌, length, OnOk, IsTrue};
ghost use Rattle.aig.specs.Graph.{Grows};

use crate::anchors::turned;
use crate::leaves::is_full;
use aig::{Aig, Lit, Node};
use sec_base::NoMemory;
use std::alloc::Global;
use tie_candidates::Flop;

/// Puts behind the nodes what each of them that reads these latches alone has in the next cycle.
pub(crate) fn put_ahead(alloc: Global, aig: &mut Aig, flops: &[Flop]) -> Result<(), NoMemory>
    ensures { OnOk result (Grows aig.old aig.new) }
{
    let nexts = nexts_of(alloc, flops, aig.vars())?;
    let mut ahead = Vec::new(alloc);
    for n in 0..aig.size() {
        let lit = lit_ahead(aig, &nexts, &ahead, n)?;
        ahead.push(lit)?;
    }
    Ok(())
}

/// What each of so many variables has in the next cycle, where it is a latch's.
fn nexts_of(alloc: Global, flops: &[Flop], vars: u32) -> Result<Vec<Option<Lit>>, NoMemory> {
    let mut nexts = vec![in alloc; None; vars as usize]?;
    for flop in flops {
        let v = flop.variable as usize;
        if v < nexts.len() {
            nexts[v] = Some(flop.next);
        }
    }
    Ok(nexts)
}

/// What the node of this number has in the next cycle, where it reads latches alone, and those before it have these.
fn lit_ahead(
    aig: &mut Aig,
    nexts: &[Option<Lit>],
    ahead: &[Option<Lit>],
    n: u32,
) -> Result<Option<Lit>, NoMemory>
    requires { n < length aig.old }
    ensures { OnOk result (Grows aig.old aig.new) }
{
    match aig.node(n) {
        Node::Constant => Ok(Some(Lit::FALSE)),
        Node::Input(v) => Ok(nexts.get(v as usize).copied().flatten()),
        Node::And(l, r) => both_ahead(aig, read_ahead(ahead, l), read_ahead(ahead, r)),
    }
}

/// What the literal has in the next cycle.
fn read_ahead(ahead: &[Option<Lit>], l: Lit) -> Option<Lit> {
    let made = ahead.get((l.0 / 2) as usize).copied().flatten()?;
    Some(turned(made, l.0 % 2 == 1))
}

/// The and of both, where there are both and these are literals of the graph.
fn both_ahead(aig: &mut Aig, left: Option<Lit>, right: Option<Lit>) -> Result<Option<Lit>, NoMemory>
    ensures { OnOk result (Grows aig.old aig.new) }
{
    let (Some(l), Some(r)) = (left, right) else {
        return Ok(None);
    };
    if !is_within(aig, l) || !is_within(aig, r) {
        return Ok(None);
    }
    if is_full(aig) {
        return Err(NoMemory);
    }
    Ok(Some(aig.and(l, r)?))
}

/// Whether it is a literal of the graph.
fn is_within(aig: &Aig, l: Lit) -> bool
    ensures { IsTrue result → l.0 < 2 * length aig.now }
{
    l.0 / 2 < aig.size()
}
