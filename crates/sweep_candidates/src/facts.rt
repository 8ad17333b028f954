//! What is known beside a part of a graph: merged nodes that read near it. No clause sees it.

use crate::guide::{Guide, Part};
use aig::{Aig, Lit, NoMemory, Node};
use std::alloc::Global;

/// How many merges are looked at, the last ones.
const LOOKED: usize = 400;

/// The most facts of a part.
const FACTS: usize = 200;

/// The most nodes between a fact and the part.
const BETWEEN: usize = 8;

/// The most nodes that are looked at for that.
const STEPS: usize = 24;

/// The part of these nodes, without facts.
pub fn plain_part(alloc: Global, numbers: Vec<u32>) -> Part {
    Part {
        numbers,
        facts: Vec::new(alloc),
    }
}

/// The part of these nodes, which are increasing, with the last merged nodes that read near it, as the literals do that were chosen for them.
pub fn part_with_facts(
    alloc: Global,
    graph: &Aig,
    guide: &Guide,
    chosen: &[Lit],
    numbers: Vec<u32>,
) -> Result<Part, NoMemory> {
    let mut part = plain_part(alloc, numbers);
    let mut more = Vec::new(alloc);
    let count = guide.merged.len();
    for i in 0..count.min(LOOKED) {
        if part.facts.len() >= FACTS {
            break;
        }
        let n = guide.merged[count - 1 - i];
        if see_fact(alloc, graph, chosen, n, part.numbers.as_slice(), &mut more)? {
            part.facts.push(n)?;
        }
    }
    part.close(more.as_slice())?;
    Ok(part)
}

/// Puts the nodes between the fact and the part to the others, if these are few.
fn see_fact(
    alloc: Global,
    graph: &Aig,
    chosen: &[Lit],
    n: u32,
    numbers: &[u32],
    more: &mut Vec<u32>,
) -> Result<bool, NoMemory> {
    let Some(k) = chosen.get(n as usize) else {
        return Ok(false);
    };
    let mut between = Vec::new(alloc);
    between.push(k.0 / 2)?;
    if !reaches(graph, numbers, &mut between)? {
        return Ok(false);
    }
    between.push(n)?;
    if !reaches(graph, numbers, &mut between)? {
        return Ok(false);
    }
    more.extend_from_slice(between.as_slice())?;
    Ok(true)
}

/// Whether the nodes, and those that they read outside the part, are few and read nothing else.
fn reaches(graph: &Aig, numbers: &[u32], between: &mut Vec<u32>) -> Result<bool, NoMemory> {
    let mut outside = 0usize;
    for at in 0..STEPS {
        if at >= between.len() {
            return Ok(true);
        }
        let n = between[at];
        if let Err(_) = numbers.binary_search(&n) {
            outside = outside.saturating_add(1);
            if outside > BETWEEN || !see_read(graph, n, between)? {
                return Ok(false);
            }
        }
    }
    Ok(false)
}

/// Puts what the node reads to the others. It tells whether it reads something.
fn see_read(graph: &Aig, n: u32, between: &mut Vec<u32>) -> Result<bool, NoMemory> {
    if n >= graph.size() {
        return Ok(false);
    }
    match graph.node(n) {
        Node::And(l, r) => {
            see(between, l.node())?;
            see(between, r.node())?;
            Ok(true)
        }
        Node::Constant => Ok(true),
        Node::Input(_) => Ok(false),
    }
}

/// Puts the number to the others, if it isn't among them.
fn see(between: &mut Vec<u32>, n: u32) -> Result<(), NoMemory> {
    for i in 0..between.len() {
        if between[i] == n {
            return Ok(());
        }
    }
    between.push(n)?;
    Ok(())
}

impl Part {
    /// Puts more nodes to its own, and sorts them, each once.
    fn close(&mut self, more: &[u32]) -> Result<(), NoMemory> {
        if more.is_empty() {
            return Ok(());
        }
        self.numbers.extend_from_slice(more)?;
        self.numbers.sort()?;
        self.numbers.dedup();
        Ok(())
    }
}
