//! A graph on which the queries of all rounds stand, and what is known of it under every assignment.

ghost use Rattle.std.specs.Prelude.{◌≡◌, ℕ, Bool, false, ◌*◌, ◌<◌, List, length, IfOk, OnOk};
ghost use Rattle.aig.specs.declared.node.Node.{Node};
ghost use Rattle.aig.specs.Values.{value};
ghost use Rattle.aig.specs.lane_eval.root_classes.Agreeing.{Agree};
ghost use Rattle.swept_queries.specs.declared.node_agreement.proof.Proved.TheVariants as proved;
ghost use Rattle.swept_queries.specs.node_agreement.Standing.{StandsFor, AreChosen, plainly};
ghost use Rattle.signal_refine.specs.Asking.{AreKnown};

use aig::{Aig, Lit, Node};
use sec_base::NoMemory;
use std::alloc::Global;
use swept_queries::node_agreement::{Budget, Effort, Proved, prove, signed, zero};

/// For how many conflicts two literals are searched for a difference under every assignment.
const FEW: u32 = 100;

/// A graph, and for each of its first nodes a literal of the same value under every assignment: nodes that were proved to agree have one.
#[derive(Drop)]
pub(crate) struct Facts {
    pub aig: Aig,
    pub kept: Vec<Lit>,
    /// How many ands there are at most on a way from the variables to each of the first nodes.
    levels: Vec<u32>,
    /// What short searches of a round may spend.
    budget: Budget,
}

impl Facts {
    /// Of a new graph.
    pub(crate) fn new(alloc: Global) -> Result<Facts, NoMemory>
        ensures { IfOk result AreKnown }
    {
        Ok(Facts {
            aig: Aig::new(alloc)?,
            kept: Vec::new(alloc),
            levels: Vec::new(alloc),
            budget: budget_of(0, 0),
        })
    }

    /// Begins a round of short searches, each with at most so many conflicts.
    pub(crate) fn begin(&mut self, conflicts: u32)
        requires { AreKnown self.old }
        ensures aig { self.new.aig ≡ self.old.aig }
        ensures known { AreKnown self.new }
    {
        self.budget = budget_of(conflicts.min(FEW), self.aig.size());
    }

    /// The literal of the same value that is kept for this one.
    pub(crate) fn kept_for(&self, l: Lit) -> Lit
        requires known { AreKnown self.now }
        requires within { l.0 < 2 * length self.now.aig }
        ensures { StandsFor plainly self.now.aig self.now.aig l.0 result.0 }
    {
        let once = follow(&self.kept, l);
        follow(&self.kept, once)
    }

    /// Whether the two literals are one under every assignment, as far as a short search shows. If so, that is known since.
    pub(crate) fn prove_one(&mut self, alloc: Global, l: Lit, r: Lit) -> Result<Proved, NoMemory>
        requires known { AreKnown self.old }
        requires left { l.0 < 2 * length self.old.aig }
        requires right { r.0 < 2 * length self.old.aig }
        ensures same { IfOk result (λ p. p ≡ proved.Same → Agree self.old.aig l.0 r.0) }
        ensures aig { self.new.aig ≡ self.old.aig }
        ensures known { OnOk result (AreKnown self.new) }
    {
        self.reach()?;
        let told = prove(alloc, &self.aig, &self.levels, l, r, &mut self.budget)?;
        match told {
            Proved::Same => {
                self.note(l, r);
                Ok(Proved::Same)
            }
            other => Ok(other),
        }
    }

    /// Whether the literal is 0 under every assignment, with at most so many conflicts.
    pub(crate) fn prove_zero(
        &mut self,
        alloc: Global,
        l: Lit,
        conflicts: u32,
    ) -> Result<Proved, NoMemory>
        requires known { AreKnown self.old }
        requires within { l.0 < 2 * length self.old.aig }
        ensures same { IfOk result (λ p. p ≡ proved.Same → (a : ℕ → Bool) → value self.old.aig a l.0 ≡ false) }
        ensures aig { self.new.aig ≡ self.old.aig }
        ensures known { OnOk result (AreKnown self.new) }
    {
        self.reach()?;
        let none = zero(&self.aig);
        let mut budget = budget_of(conflicts, self.aig.size());
        prove(alloc, &self.aig, &self.levels, l, none, &mut budget)
    }

    /// Each node has a kept literal and a level.
    fn reach(&mut self) -> Result<(), NoMemory>
        requires known { AreKnown self.old }
        ensures aig { self.new.aig ≡ self.old.aig }
        ensures known { OnOk result (AreKnown self.new) }
    {
        let from = self.kept.len().min(self.aig.size() as usize) as u32;
        for n in from..self.aig.size() {
            self.put(n)?;
        }
        Ok(())
    }

    /// Puts the node itself, where it is the next one.
    fn put(&mut self, n: u32) -> Result<(), NoMemory>
        requires known { AreKnown self.old }
        requires node { n < length self.old.aig }
        ensures aig { self.new.aig ≡ self.old.aig }
        ensures known { OnOk result (AreKnown self.new) }
    {
        self.aig.keeps();
        if self.kept.len() != n as usize {
            return Ok(());
        }
        let level = level_of(&self.levels, self.aig.node(n));
        self.levels.push(level)?;
        self.kept.push(Lit(2 * n))?;
        Ok(())
    }

    /// Notes that both agree.
    fn note(&mut self, l: Lit, r: Lit)
        requires known { AreKnown self.old }
        requires left { l.0 < 2 * length self.old.aig }
        requires right { r.0 < 2 * length self.old.aig }
        requires agree { Agree self.old.aig l.0 r.0 }
        ensures aig { self.new.aig ≡ self.old.aig }
        ensures known { AreKnown self.new }
    {
        if l.0 < r.0 {
            self.keep(r, l);
        } else {
            self.keep(l, r);
        }
    }

    /// Keeps a literal for the node of another one, which agrees with it.
    fn keep(&mut self, from: Lit, to: Lit)
        requires known { AreKnown self.old }
        requires within { to.0 < 2 * length self.old.aig }
        requires agree { Agree self.old.aig from.0 to.0 }
        ensures aig { self.new.aig ≡ self.old.aig }
        ensures known { AreKnown self.new }
    {
        let n = (from.0 / 2) as usize;
        if n < self.kept.len() {
            self.kept[n] = signed(to, from);
        }
    }
}

/// So many conflicts for each search, and twenty times as many for those that fail.
fn budget_of(conflicts: u32, nodes: u32) -> Budget {
    let effort = Effort {
        conflicts: conflicts.saturating_mul(20),
        searches: true,
    };
    Budget::new(effort, nodes)
}

/// How many ands there are at most on a way to the node, where those before have these numbers.
fn level_of(levels: &[u32], node: Node) -> u32 {
    match node {
        Node::And(l, r) => {
            let left = levels.get((l.0 / 2) as usize).copied().unwrap_or(0);
            let right = levels.get((r.0 / 2) as usize).copied().unwrap_or(0);
            left.max(right).saturating_add(1)
        }
        _ => 0,
    }
}

/// The kept literal for this one, if there is one.
fn follow(kept: &[Lit], l: Lit) -> Lit
    ensures { (g : List Node) → AreChosen g kept.now → l.0 < 2 * length g → StandsFor plainly g g l.0 result.0 }
{
    let n = (l.0 / 2) as usize;
    if n < kept.len() {
        signed(kept[n], l)
    } else {
        l
    }
}
