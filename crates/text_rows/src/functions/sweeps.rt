//! Calls of the sweep, and of agreement by cases.

ghost use Rattle.std.specs.Prelude.{◌≡◌, ◌*◌, ◌<◌, length};

use crate::row_text::show;
use aig::{Aig, Lit, Lits};
use sec_base::NoMemory;
use std::alloc::Global;
use std::rt::HostRuntime;
use sweep_candidates::case_split::agree_by_cases;
use swept_queries::sweep::{Swept, sweep};

/// Fills the words by Marsaglia's xorshift ("Xorshift RNGs").
fn fill(words: &mut [u64])
    ensures { length words.new ≡ length words.old }
{
    let mut state: u64 = 88_172_645_463_325_252;
    for word in words.iter_mut() {
        state ^= state << 13;
        state ^= state >> 7;
        state ^= state << 17;
        *word = state;
    }
}

/// The sweep of both with 512 assignments that a generator gives, of 100 variables at most.
fn sweep_both(
    alloc: Global,
    graph: &Aig,
    left: Lit,
    right: Lit,
    conflicts: u32,
) -> Result<Swept, NoMemory>
    requires left { left.0 < 2 * length graph.now }
    requires right { right.0 < 2 * length graph.now }
{
    let mut words = [0; 800];
    let count = 8 * (graph.vars() as usize);
    if count > 800 {
        return Err(NoMemory);
    }
    fill(&mut words[..count]);
    let mut roots = Lits::new(alloc);
    roots.push(left)?;
    roots.push(right)?;
    sweep(alloc, graph, &roots, conflicts, &words[..count])
}

/// Shows whether a sweep with at most so many conflicts gives both sides one literal.
pub(crate) fn show_swept(rt: &HostRuntime, graph: &Aig, left: Lit, right: Lit, conflicts: u32)
    requires left { left.0 < 2 * length graph.now }
    requires right { right.0 < 2 * length graph.now }
{
    match sweep_both(rt.alloc(), graph, left, right, conflicts) {
        Ok(swept) => show_merged(rt, swept.lits.as_slice()),
        Err(_) => show(rt, b" no memory"),
    }
}

fn show_merged(rt: &HostRuntime, lits: &[Lit]) {
    match lits {
        [first, second] if first.0 == second.0 => show(rt, b" one literal"),
        _ => show(rt, b" two literals"),
    }
}

/// Shows whether both literals are told to agree by cases.
pub(crate) fn show_cases(rt: &HostRuntime, graph: &Aig, left: Lit, right: Lit) {
    match agree_by_cases(rt.alloc(), graph, left, right) {
        Ok(true) => show(rt, b" agree"),
        Ok(false) => show(rt, b" not told"),
        Err(_) => show(rt, b" no memory"),
    }
}
