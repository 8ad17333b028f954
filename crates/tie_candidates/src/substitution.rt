//! Which variables of a cycle have the values of gates that they are tied to. So a flip-flop of one circuit that was moved over gates in the other
//! one has what these have, and assignments that are drawn meet its tie.

use aig::{Aig, NoMemory, Node};
use circuit_laws::signal_laws::Anchor;
use std::alloc::Global;

/// A variable that has a gate's value, or its complement.
#[derive(Clone, Copy)]
pub(crate) struct Substitute {
    pub variable: u32,
    /// The gate's node.
    pub gate: u32,
    pub flipped: bool,
}

/// Variables that have the values of gates, none of which reads its own variable.
#[derive(Drop)]
pub struct Substitution {
    pub(crate) list: Vec<Substitute>,
    /// How many of these variables stand behind one another at most.
    pub(crate) depth: usize,
}

/// How far a node was walked.
#[derive(Clone, Copy)]
enum Walk {
    Unseen,
    Open,
    /// So many variables that have the values of gates stand behind it, one behind the other.
    Done(usize),
}

/// A walk through a graph and the gates that variables are tied to.
#[derive(Drop)]
struct Walker {
    /// The gate of each node that is a variable's.
    gates: Vec<Option<Substitute>>,
    walks: Vec<Walk>,
    /// The nodes to be walked, the next one last.
    ahead: Vec<u32>,
    /// The nodes on the way that have a gate.
    open: Vec<u32>,
}

impl Substitution {
    /// Of no variable.
    pub fn new(alloc: Global) -> Substitution {
        Substitution {
            list: Vec::new(alloc),
            depth: 0,
        }
    }

    /// Of the variables to which a gate is tied: each has the first one, as long as this doesn't read it.
    pub fn of(alloc: Global, base: &Aig, ties: &[Anchor]) -> Result<Substitution, NoMemory> {
        let mut walker = Walker {
            gates: gates_of(alloc, base, ties)?,
            walks: vec![in alloc; Walk::Unseen; base.size() as usize]?,
            ahead: Vec::new(alloc),
            open: Vec::new(alloc),
        };
        for n in 0..base.size() {
            walker.ahead.push(n)?;
        }
        for _n in 0..(base.size() as usize).saturating_mul(6) {
            if let Some(n) = walker.ahead.pop() {
                walker.step(base, n)?;
            }
        }
        walker.substitution(alloc)
    }
}

/// For each node of a variable the first gate that is tied to it, if there is one.
fn gates_of(
    alloc: Global,
    base: &Aig,
    ties: &[Anchor],
) -> Result<Vec<Option<Substitute>>, NoMemory> {
    let mut gates = vec![in alloc; None; base.size() as usize]?;
    for gate in 0..base.size() {
        if let Some(Anchor::Place { place, flipped }) = ties.get(gate as usize).copied()
            && let Some(variable) = variable_at(base, place)
            && variable_at(base, gate as usize).is_none()
            && place < gates.len()
            && gates[place].is_none()
        {
            gates[place] = Some(Substitute {
                variable,
                gate,
                flipped,
            });
        }
    }
    Ok(gates)
}

/// The variable of the node, if it is one's.
fn variable_at(base: &Aig, n: usize) -> Option<u32> {
    if n >= base.size() as usize {
        return None;
    }
    match base.node(n as u32) {
        Node::Input(v) => Some(v),
        _ => None,
    }
}

/// The nodes that the node reads.
fn read_by(base: &Aig, n: u32) -> Option<(u32, u32)> {
    if n >= base.size() {
        return None;
    }
    match base.node(n) {
        Node::And(l, r) => Some((l.0 / 2, r.0 / 2)),
        _ => None,
    }
}

impl Walker {
    /// Opens the node, or ends it.
    fn step(&mut self, base: &Aig, n: u32) -> Result<(), NoMemory> {
        match self.walk_of(n) {
            Walk::Unseen => self.begin(base, n),
            Walk::Open => {
                self.end(base, n);
                Ok(())
            }
            Walk::Done(_) => Ok(()),
        }
    }

    fn walk_of(&self, n: u32) -> Walk {
        self.walks.get(n as usize).copied().unwrap_or(Walk::Done(0))
    }

    fn gate_of(&self, n: u32) -> Option<Substitute> {
        self.gates.get(n as usize).copied().flatten()
    }

    fn put(&mut self, n: u32, walk: Walk) {
        let n = n as usize;
        if n < self.walks.len() {
            self.walks[n] = walk;
        }
    }

    /// Opens the node, and puts it and those that it reads ahead.
    fn begin(&mut self, base: &Aig, n: u32) -> Result<(), NoMemory> {
        self.put(n, Walk::Open);
        self.ahead.push(n)?;
        if let Some((l, r)) = read_by(base, n) {
            self.reach(l)?;
            self.reach(r)?;
        }
        if let Some(it) = self.gate_of(n) {
            self.open.push(n)?;
            self.reach(it.gate)?;
        }
        Ok(())
    }

    /// Puts a node that is read ahead. One that is open would read itself: the last variable on the way has no gate then.
    fn reach(&mut self, n: u32) -> Result<(), NoMemory> {
        match self.walk_of(n) {
            Walk::Unseen => self.ahead.push(n)?,
            Walk::Open => {
                let last = self.open.last().copied().unwrap_or(u32::MAX) as usize;
                if last < self.gates.len() {
                    self.gates[last] = None;
                }
            }
            Walk::Done(_) => {}
        }
        Ok(())
    }

    /// Ends the node, behind which those stand that it reads.
    fn end(&mut self, base: &Aig, n: u32) {
        if self.open.last().copied() == Some(n) {
            let _last = self.open.pop();
        }
        let mut depth = 0;
        if let Some((l, r)) = read_by(base, n) {
            depth = self.depth(l).max(self.depth(r));
        }
        if let Some(it) = self.gate_of(n) {
            depth = self.depth(it.gate).saturating_add(1);
        }
        self.put(n, Walk::Done(depth));
    }

    fn depth(&self, n: u32) -> usize {
        match self.walk_of(n) {
            Walk::Done(depth) => depth,
            _ => 0,
        }
    }

    /// The variables that have a gate in the end.
    fn substitution(&self, alloc: Global) -> Result<Substitution, NoMemory> {
        let mut made = Substitution::new(alloc);
        for n in 0..self.gates.len() {
            if let Some(it) = self.gates[n] {
                made.list.push(it)?;
                made.depth = made.depth.max(self.depth(n.min(1 << 30) as u32));
            }
        }
        Ok(made)
    }
}
