//! The graph beside another one, and its sweep.

ghost use Rattle.std.specs.Prelude.{◌≡◌, ◌+◌, ◌*◌, ◌^◌, ◌<◌, ◌≤◌, List, length, All, IfOk, OnOk, IsTrue};
ghost use Rattle.aig.specs.declared.node.Node.{Node};
ghost use Rattle.aig.specs.Graph.{vars_of};
ghost use Rattle.swept_queries.specs.node_agreement.Agreeing.{Agree};
ghost use Rattle.swept_queries.specs.sweep.Swept.{IsSwept};
ghost use Rattle.merged_graph.specs.Merged.{IsMerged};

use crate::searches::{Found, agree};
use crate::stand_ins::{literal_at, put_node, with_literal};
use crate::targets::{is_any_open, is_any_told, is_one, is_told, put_open};
use crate::words::words_for;
use aig::lane_eval::SignatureTable;
use aig::{Aig, Lit, Lits, MAX_CONFLICTS, MAX_TABLE_VARIABLES, NoMemory};
use std::alloc::Global;
use swept_queries::node_agreement::{Effort, Model, signatures};
use swept_queries::put_models;
use swept_queries::sweep::{Swept, sweep_across};

/// The least conflicts with which nodes are tried.
const LEAST: u32 = 20;

/// From how many nodes on the graph grows no more.
const MOST: u32 = 1 << 29;

/// A graph, and a literal in it for each of the first nodes of another graph, which has the node's value under every assignment. Nodes
/// that were proved to agree have one literal.
pub struct MergedGraph {
    pub graph: Aig,
    pub lits: Lits,
    /// How many of the other graph's nodes were there when nodes were last tried.
    pub tried: usize,
    /// What told pairs apart that were decided last.
    pub told: Vec<Model>,
}

/// It is let go by one call: an owner isn't taken apart field by field at each way out.
impl Drop for MergedGraph {
    fn drop(self) {
        let MergedGraph {
            graph: _,
            lits: _,
            tried: _,
            told: _,
        } = self;
    }
}

impl MergedGraph {
    /// Without a literal.
    pub fn new(alloc: Global) -> Result<MergedGraph, NoMemory>
        ensures { IfOk result (λ m. (g : List Node) → IsMerged g m) }
    {
        Ok(MergedGraph {
            graph: Aig::new(alloc)?,
            lits: Lits::new(alloc),
            tried: 0,
            told: Vec::new(alloc),
        })
    }

    /// Whether two literals of the other graph have one here: then they agree under every assignment.
    pub fn is_one(&self, left: Lit, right: Lit) -> bool
        ensures { IsTrue result → (g : List Node) → IsMerged g self.now → Agree g left.0 right.0 }
    {
        is_one(self.lits.as_slice(), left, right)
    }

    /// Follows the other graph, which may have grown, and makes these pairs of its literals one, where they are proved to agree. They are
    /// swept by small cuts, then decided one by one, each with at most a twentieth of so many conflicts, and where no pair is told apart so,
    /// nor by one of 512 assignments, swept by searches, and then decided with all of them. By searches only nodes of right sides are tried
    /// that weren't there when nodes were last tried. Nothing is done where all variables are at most 16, where a twentieth of the conflicts
    /// is less than one, and where each pair is one already.
    pub fn merge(
        &mut self,
        alloc: Global,
        other: &Aig,
        asked: &[(Lit, Lit)],
        conflicts: u32,
    ) -> Result<(), NoMemory>
        requires merged { IsMerged other.now self.old }
        requires conflicts { conflicts ≤ MAX_CONFLICTS }
        ensures { OnOk result (IsMerged other.now self.new) }
    {
        let few = other.vars() as usize <= MAX_TABLE_VARIABLES;
        self.told = Vec::new(alloc);
        if few || conflicts < LEAST || !is_any_open(self.lits.as_slice(), asked) {
            return Ok(());
        }
        self.follow(other)?;
        self.sweep(alloc, other, asked, conflicts, false)?;
        self.decide(alloc, other, asked, conflicts / 20)?;
        if self.is_any_told(alloc, asked)? {
            return Ok(());
        }
        self.sweep(alloc, other, asked, conflicts, true)?;
        self.decide(alloc, other, asked, conflicts)?;
        self.tried = self.lits.len();
        Ok(())
    }

    /// Whether one of 512 assignments tells a pair apart.
    fn is_any_told(&self, alloc: Global, asked: &[(Lit, Lit)]) -> Result<bool, NoMemory> {
        let table = self.values(alloc)?;
        Ok(is_any_told(&table, self.graph.size(), self.lits.as_slice(), asked))
    }

    /// The nodes' values under 512 assignments, of which 64 are near each of those that told pairs apart.
    fn values(&self, alloc: Global) -> Result<SignatureTable, NoMemory>
        ensures { IfOk result (λ table. length table ≡ length self.now.graph) }
    {
        let mut words = words_for(alloc, self.graph.vars())?;
        put_models(words.as_mut_slice(), self.told.as_slice());
        signatures(alloc, &self.graph, words.as_slice())
    }

    /// Puts a literal for each further node of the other graph, as long as there is room.
    fn follow(&mut self, other: &Aig) -> Result<(), NoMemory>
        requires { IsMerged other.now self.old }
        ensures { OnOk result (IsMerged other.now self.new) }
    {
        other.keeps();
        for n in (self.lits.len() as u32)..other.size() {
            if self.graph.size() >= MOST {
                return Ok(());
            }
            self.put(other, n)?;
        }
        Ok(())
    }

    /// Puts the literal for the next node.
    fn put(&mut self, other: &Aig, n: u32) -> Result<(), NoMemory>
        requires node { n < length other.now }
        requires each { length self.old.lits ≡ n }
        requires merged { IsMerged other.now self.old }
        requires room { length self.old.graph + 1 < 2 ^ 30 }
        ensures merged { OnOk result (IsMerged other.now self.new) }
        ensures each { OnOk result (length self.new.lits ≡ n + 1) }
    {
        let x = put_node(&mut self.graph, other, n, self.lits.as_slice())?;
        self.lits.push(x)?;
        Ok(())
    }

    /// Sweeps the graph for the pairs that aren't one yet, if there are any: by small cuts alone, or by searches too.
    fn sweep(
        &mut self,
        alloc: Global,
        other: &Aig,
        asked: &[(Lit, Lit)],
        conflicts: u32,
        searches: bool,
    ) -> Result<(), NoMemory>
        requires { IsMerged other.now self.old }
        ensures { OnOk result (IsMerged other.now self.new) }
    {
        other.keeps();
        if !is_any_open(self.lits.as_slice(), asked) {
            return Ok(());
        }
        let effort = Effort {
            conflicts,
            searches,
        };
        let swept = self.swept(alloc, asked, effort)?;
        let Swept { aig, lits } = swept;
        self.graph = aig;
        self.lits = lits;
        Ok(())
    }

    /// The swept graph, with a literal for each of the list.
    fn swept(&self, alloc: Global, asked: &[(Lit, Lit)], effort: Effort) -> Result<Swept, NoMemory>
        requires { (g : List Node) × IsMerged g self.now }
        ensures { IfOk result (IsSwept self.now.graph self.now.lits) }
    {
        let lits = self.lits.as_slice();
        let mut tried = Vec::new(alloc);
        put_open(&mut tried, lits, asked, true)?;
        let mut kept = Vec::from_slice(alloc, &lits[..self.tried.min(lits.len())])?;
        put_open(&mut kept, lits, asked, false)?;
        let words = words_for(alloc, self.graph.vars())?;
        sweep_across(
            alloc,
            &self.graph,
            &self.lits,
            tried.as_slice(),
            kept.as_slice(),
            effort,
            words.as_slice(),
        )
    }

    /// Decides the pairs that aren't one yet, each with at most so many conflicts, and makes those one that agree, up to the first that stays
    /// open. What tells one apart is tried on those behind it.
    fn decide(
        &mut self,
        alloc: Global,
        other: &Aig,
        asked: &[(Lit, Lit)],
        conflicts: u32,
    ) -> Result<(), NoMemory>
        requires merged { IsMerged other.now self.old }
        requires conflicts { conflicts ≤ MAX_CONFLICTS }
        ensures { OnOk result (IsMerged other.now self.new) }
    {
        let mut table = self.values(alloc)?;
        let mut nodes = self.graph.size();
        for i in 0..asked.len() {
            let (left, right) = asked[i];
            if !is_told(&table, nodes, self.lits.as_slice(), left, right) {
                let before = self.told.len();
                if !self.decide_pair(alloc, other, left, right, conflicts)? {
                    return Ok(());
                }
                if before < self.told.len() {
                    table = self.values(alloc)?;
                    nodes = self.graph.size();
                }
            }
        }
        Ok(())
    }

    /// The same of one pair. Whether it doesn't stay open.
    fn decide_pair(
        &mut self,
        alloc: Global,
        _other: &Aig,
        left: Lit,
        right: Lit,
        conflicts: u32,
    ) -> Result<bool, NoMemory>
        requires merged { IsMerged _other.now self.old }
        requires conflicts { conflicts ≤ MAX_CONFLICTS }
        ensures { OnOk result (IsMerged _other.now self.new) }
    {
        let lits = self.lits.as_slice();
        let (Some(x), Some(y)) = (literal_at(lits, left), literal_at(lits, right)) else {
            return Ok(false);
        };
        if x.0 == y.0 {
            return Ok(true);
        }
        match agree(alloc, &self.graph, x, y, conflicts)? {
            Found::Agree => {
                let made = with_literal(alloc, lits, right, x)?;
                self.lits = Lits::from_vec(made);
                Ok(true)
            }
            Found::Apart(model) => {
                self.told.push(model)?;
                Ok(true)
            }
            Found::Open => Ok(false),
        }
    }
}
