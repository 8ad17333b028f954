//! The new graph, node by node.

ghost use Rattle.std.specs.Prelude.{◌≡◌, ℕ, ◌+◌, ◌*◌, ◌^◌, ◌<◌, ◌≤◌, max, [], ◌∷◌, List, length, slice_get, Some, IfOk, IfSome, OnOk};
ghost use Rattle.aig.specs.declared.node.Node.{Node};
ghost use Rattle.aig.specs.declared.node.Node.TheVariants.{Constant};
ghost use Rattle.aig.specs.Graph.{vars_of};
ghost use Rattle.aig.specs.Values.{KeepsValues};
ghost use Rattle.aig.specs.declared.node.Lit.{Lit};
ghost use Rattle.swept_queries.specs.declared.sweep.growth.Step.TheVariants as step;
ghost use Rattle.swept_queries.specs.node_agreement.Standing.{StandsFor, AreStandIns, AreChosen, plainly, literal_in};
ghost use Rattle.swept_queries.specs.sweep.Grown.{IsGrown};
ghost use Rattle.swept_queries.specs.sweep.Swept.{HasNoOtherInputs};

use crate::node_agreement::{Budget, Effort, Hints, Proved, prove_by, signed, zero};
use aig::{Aig, Lit, NoMemory, Node};
use std::alloc::Global;

/// A graph that grows, the literals in it for the first nodes of another graph, and for each of its own nodes a kept literal of
/// the same value.
#[derive(Drop)]
pub(crate) struct Growth {
    pub graph: Aig,
    pub map: Vec<Lit>,
    pub chosen: Vec<Lit>,
    pub hints: Hints,
    pub budget: Budget,
}

/// What is done with a node.
#[derive(Clone, Copy)]
pub(crate) enum Role {
    /// Nothing.
    Outside,
    /// Others may be merged with it.
    Kept,
    /// It may be merged with another one, too.
    Tried,
}

/// The most nodes that one is tried with.
const TRIES: usize = 16;

/// What comes of trying a node with another one.
#[derive(Clone, Copy)]
enum Step {
    Merge(Lit),
    /// They differ, so another one is next.
    Next,
    Stop,
}

/// All nodes of a graph in a new graph, where some may have become one with earlier ones, by the roles of the nodes.
pub(crate) fn grown(
    alloc: Global,
    old: &Aig,
    roles: &[Role],
    effort: Effort,
    words: &[u64],
) -> Result<Growth, NoMemory>
    ensures { IfOk result (λ w. IsGrown old.now w (length old.now)) }
{
    old.keeps();
    let mut growth = begun(alloc, old, effort, words)?;
    let marked = marked_in(alloc, old)?;
    for n in 1..old.size() {
        let role = roles.get(n as usize).copied().unwrap_or(Role::Outside);
        let ends = marked.get(n as usize) == Some(&true);
        growth.put_next(alloc, old, n, words, role, ends)?;
    }
    Ok(growth)
}

/// For each node whether it is marked, or nothing where none is.
fn marked_in(alloc: Global, old: &Aig) -> Result<Vec<bool>, NoMemory> {
    let marks = old.marks();
    if marks.is_empty() {
        return Ok(Vec::new(alloc));
    }
    let mut marked = vec![in alloc; false; old.size() as usize]?;
    for i in 0..marks.len() {
        let n = marks[i] as usize;
        if n < marked.len() {
            marked[n] = true;
        }
    }
    Ok(marked)
}

/// Whether the node is one, and has operands.
fn is_and(graph: &Aig, n: u32) -> bool {
    n < graph.size() && matches!(graph.node(n), Node::And(_, _))
}

/// The graph of the constant.
fn begun(alloc: Global, old: &Aig, effort: Effort, words: &[u64]) -> Result<Growth, NoMemory>
    ensures { IfOk result (λ w. IsGrown old.now w 1) }
{
    old.keeps();
    let mut map = Vec::new(alloc);
    map.push(Lit::FALSE)?;
    let graph = Aig::new(alloc)?;
    graph.keeps();
    let mut growth = Growth {
        graph,
        map,
        chosen: Vec::new(alloc),
        hints: Hints::drawn(alloc, old.size())?,
        budget: Budget::new(effort, old.size()),
    };
    growth.note(alloc, 0, words, Role::Kept)?;
    Ok(growth)
}

impl Growth {
    /// Puts the literal for the next node of the old graph behind the others, and notes whether a stage ends there.
    fn put_next(
        &mut self,
        alloc: Global,
        old: &Aig,
        n: u32,
        words: &[u64],
        role: Role,
        ends: bool,
    ) -> Result<(), NoMemory>
        requires node { n < length old.now }
        requires some { 0 < n }
        requires grown { IsGrown old.now self.old n }
        ensures { OnOk result (IsGrown old.now self.new (n + 1)) }
    {
        self.put(alloc, old, n, words, role)?;
        self.note_end(ends)?;
        Ok(())
    }

    /// Puts the literal for the next node of the old graph behind the others. It may be one that was kept before only if the
    /// node is to be tried.
    fn put(
        &mut self,
        alloc: Global,
        old: &Aig,
        n: u32,
        words: &[u64],
        role: Role,
    ) -> Result<(), NoMemory>
        requires node { n < length old.now }
        requires some { 0 < n }
        requires grown { IsGrown old.now self.old n }
        ensures { OnOk result (IsGrown old.now self.new (n + 1)) }
    {
        old.keeps();
        let x = put_node(&mut self.graph, old, n, self.map.as_slice())?;
        self.note(alloc, x.node(), words, role)?;
        let y = follow(self.chosen.as_slice(), x);
        self.map.push(y)?;
        Ok(())
    }

    /// Notes that a stage ends at the last literal, if it does: its node is marked. At a variable each cone ends anyway.
    fn note_end(&mut self, ends: bool) -> Result<(), NoMemory>
        ensures graph { self.new.graph ≡ self.old.graph }
        ensures map { self.new.map.items ≡ self.old.map.items }
        ensures chosen { self.new.chosen.items ≡ self.old.chosen.items }
    {
        if !ends {
            return Ok(());
        }
        let y = self.map.last().copied().unwrap_or(Lit::FALSE);
        if is_and(&self.graph, y.node()) {
            self.graph.mark(y)?;
            self.hints.note_leaf(y.node())?;
        }
        Ok(())
    }

    /// Notes a kept literal for the node, if it is the next one.
    fn note(&mut self, alloc: Global, n: u32, words: &[u64], role: Role) -> Result<(), NoMemory>
        requires within { n < length self.old.graph }
        requires chosen { AreChosen self.old.graph self.old.chosen.items }
        ensures graph { self.new.graph ≡ self.old.graph }
        ensures map { self.new.map.items ≡ self.old.map.items }
        ensures chosen { OnOk result (AreChosen self.new.graph self.new.chosen.items) }
    {
        if n as usize == self.chosen.len() {
            let y = self.merged(alloc, n, words, role)?;
            self.chosen.push(y)?;
        }
        Ok(())
    }

    /// A literal of the node's value: one that was kept before if it is proved to agree, and else the node's own.
    fn merged(&mut self, alloc: Global, n: u32, words: &[u64], role: Role) -> Result<Lit, NoMemory>
        requires within { n < length self.old.graph }
        requires chosen { AreChosen self.old.graph self.old.chosen.items }
        ensures graph { self.new.graph ≡ self.old.graph }
        ensures map { self.new.map.items ≡ self.old.map.items }
        ensures chosen { self.new.chosen.items ≡ self.old.chosen.items }
        ensures stands { IfOk result (λ y. StandsFor plainly self.old.graph self.old.graph (2 * n) y.0) }
    {
        self.graph.keeps();
        self.hints.add(self.graph.node(n), words)?;
        if role == Role::Tried
            && let Some(k) = self.agreeing(alloc, n, words)?
        {
            self.hints.note_merged(n)?;
            return Ok(k);
        }
        if role != Role::Outside {
            self.hints.join(alloc, n)?;
        }
        Ok(Lit(2 * n))
    }

    /// A literal that is proved to agree with the node. Some are tried, as long as they differ.
    fn agreeing(&mut self, alloc: Global, n: u32, words: &[u64]) -> Result<Option<Lit>, NoMemory>
        requires within { n < length self.old.graph }
        requires chosen { AreChosen self.old.graph self.old.chosen.items }
        ensures graph { self.new.graph ≡ self.old.graph }
        ensures map { self.new.map.items ≡ self.old.map.items }
        ensures chosen { self.new.chosen.items ≡ self.old.chosen.items }
        ensures stands { IfOk result (λ found. IfSome found (λ y. StandsFor plainly self.old.graph self.old.graph (2 * n) y.0)) }
    {
        for _t in 0..TRIES {
            match self.step(alloc, n, words)? {
                Step::Merge(k) => return Ok(Some(k)),
                Step::Next => {}
                Step::Stop => return Ok(None),
            }
        }
        Ok(None)
    }

    /// Tries the node with the next literal that may agree with it. Where they differ that is noted.
    fn step(&mut self, alloc: Global, n: u32, words: &[u64]) -> Result<Step, NoMemory>
        requires within { n < length self.old.graph }
        requires chosen { AreChosen self.old.graph self.old.chosen.items }
        ensures graph { self.new.graph ≡ self.old.graph }
        ensures map { self.new.map.items ≡ self.old.map.items }
        ensures chosen { self.new.chosen.items ≡ self.old.chosen.items }
        ensures stands { IfOk result (λ s. (k : Lit) → s ≡ step.Merge k → StandsFor plainly self.old.graph self.old.graph (2 * n) k.0) }
    {
        self.graph.keeps();
        let own = Lit(2 * n);
        let Some(k) = self.hints.candidate(n) else {
            return Ok(Step::Stop);
        };
        if k.0 >= own.0 {
            return Ok(Step::Stop);
        }
        let guide = self.hints.guide();
        let chosen = self.chosen.as_slice();
        match prove_by(alloc, &self.graph, &guide, chosen, own, k, &mut self.budget)? {
            Proved::Same => Ok(Step::Merge(k)),
            Proved::Apart(model) => {
                let told = self.hints.refine(alloc, self.graph.nodes(), words, &model)?;
                Ok(if told { Step::Next } else { Step::Stop })
            }
            Proved::Open => Ok(Step::Stop),
        }
    }
}

/// The literal for a node of the old graph, where those for the nodes before it are given.
fn put_node(graph: &mut Aig, old: &Aig, n: u32, map: &[Lit]) -> Result<Lit, NoMemory>
    requires node { n < length old.now }
    requires each { length map.now ≡ n }
    requires map { AreStandIns old.now graph.old map.now }
    requires room { length graph.old + 1 < 2 ^ 30 }
    ensures stands { IfOk result (λ x. StandsFor plainly old.now graph.new (2 * n) x.0) }
    ensures older { KeepsValues graph.old graph.new }
    ensures more { length graph.old ≤ length graph.new }
    ensures few { length graph.new ≤ length graph.old + 1 }
    ensures vars { OnOk result ((node : Node) → slice_get old.now n ≡ Some node → vars_of graph.new ≡ max (vars_of (node ∷ [])) (vars_of graph.old)) }
    ensures inputs { OnOk result (HasNoOtherInputs old.now graph.old → HasNoOtherInputs old.now graph.new) }
{
    let _vars = old.vars();
    match old.node(n) {
        Node::Constant => Ok(zero(graph)),
        Node::Input(v) => graph.input(v),
        Node::And(l, r) => graph.and(literal_for(map, l), literal_for(map, r)),
    }
}

/// The kept literal for this one, if there is one.
fn follow(chosen: &[Lit], x: Lit) -> Lit
    ensures { (g : List Node) → AreChosen g chosen.now → x.0 < 2 * length g → StandsFor plainly g g x.0 result.0 }
{
    let n = (x.0 / 2) as usize;
    if n < chosen.len() {
        signed(chosen[n], x)
    } else {
        x
    }
}

/// The literal for one of the old graph.
pub(crate) fn literal_for(map: &[Lit], l: Lit) -> Lit
    requires { l.0 < 2 * length map.now }
    ensures stands { (g h : List Node) → AreStandIns g h map.now → StandsFor plainly g h l.0 result.0 }
    ensures is { result.0 ≡ literal_in map.now l.0 }
{
    signed(map[(l.0 / 2) as usize], l)
}
