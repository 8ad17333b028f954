//! The stage round two literals: what they read up to the next flip-flops. No clause sees it.

use aig::{Aig, Lit, NoMemory, Node};
use base_tables::UniqueTable;
use std::alloc::Global;

/// The most nodes of a stage.
const MOST: u32 = 5_000;

/// The nodes that are reached without a step from a leaf, increasing, if these are few and some of them are leaves. From the literals' own
/// nodes there are steps.
pub fn stage_of(
    alloc: Global,
    graph: &Aig,
    leaves: &[bool],
    x: Lit,
    k: Lit,
) -> Result<Option<Vec<u32>>, NoMemory> {
    if leaves.is_empty() {
        return Ok(None);
    }
    let mut seen = UniqueTable::new(alloc, u32::MAX);
    seen.insert(x.node())?;
    seen.insert(k.node())?;
    let roots = seen.len();
    if !walk(graph, leaves, roots, &mut seen)? {
        return Ok(None);
    }
    let mut stage = Vec::from_slice(alloc, seen.as_slice())?;
    stage.sort()?;
    Ok(Some(stage))
}

/// Puts what is reached behind the first ones, which are the roots. It tells whether that is all and few, and some are leaves.
fn walk(
    graph: &Aig,
    leaves: &[bool],
    roots: u32,
    seen: &mut UniqueTable<u32>,
) -> Result<bool, NoMemory> {
    let mut stopped = false;
    for at in 0..MOST {
        if at >= seen.len() {
            return Ok(stopped);
        }
        let n = seen.key(at);
        if at >= roots && leaves.get(n as usize) == Some(&true) {
            stopped = true;
        } else {
            see_operands(graph, n, seen)?;
        }
    }
    Ok(false)
}

/// Puts the nodes that this one reads behind the others, if they aren't among them.
fn see_operands(graph: &Aig, n: u32, seen: &mut UniqueTable<u32>) -> Result<(), NoMemory> {
    if n >= graph.size() {
        return Ok(());
    }
    if let Node::And(l, r) = graph.node(n) {
        seen.insert(l.node())?;
        seen.insert(r.node())?;
    }
    Ok(())
}
