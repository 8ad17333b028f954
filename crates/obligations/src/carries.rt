//! Words over a graph in which carries are majorities: what `word_sums` guesses of adders with prefixes, where it is proved.

ghost use Rattle.std.specs.Prelude.{◌≡◌, ◌+◌, ◌*◌, ◌<◌, List, length, All, IfOk, OnOk, IsTrue};
ghost use Rattle.aig.specs.Graph.{Grows};
ghost use Rattle.aig.specs.lane_eval.root_classes.Agreeing.{Agree};
ghost use Rattle.swept_queries.specs.node_agreement.Standing.{StandsFor, AreStandIns, plainly};
ghost use Rattle.word_sums.specs.Words.{AgreeEach};
ghost use Rattle.obligations.specs.outcome.aig.Node.{Node};
ghost use Rattle.obligations.specs.Agreed.{IsRemade, StandForEach};

use crate::outcome::{Aig, NoMemory};
use aig::{Lit, Node};
use std::alloc::Global;
use swept_queries::node_agreement::{Budget, Effort, Proved, prove, signed, zero};
use word_sums::{Carry, Words, guessed_carries, majority, same_words};

/// A graph with the functions of another one, and a literal in it for each of the first nodes of that.
#[derive(Drop)]
pub(crate) struct Remade {
    pub(crate) aig: Aig,
    pub(crate) lits: Vec<Lit>,
    levels: Vec<u32>,
    budget: Budget,
}

/// So many nodes leave no room for more.
const ROOM: u32 = 1 << 29;

/// The most conflicts of all searches for carries that fail.
const CONFLICTS: u32 = 4_000;

/// Whether two words are shown to spell one number over a graph in which carries are majorities.
pub(crate) fn same_by_carries(
    alloc: Global,
    aig: &Aig,
    left: &[Lit],
    right: &[Lit],
    terms: usize,
) -> Result<bool, NoMemory>
    requires left { All (λ l. l.0 < 2 * length aig.now) left.now }
    requires right { All (λ l. l.0 < 2 * length aig.now) right.now }
    requires lengths { length left.now ≡ length right.now }
    ensures { IfOk result (λ same. IsTrue same → AgreeEach aig.now left.now right.now) }
{
    let carries = guessed_carries(alloc, aig, left, right)?;
    let remade = remade_by(alloc, aig, carries.as_slice())?;
    let own_left = moved(alloc, remade.lits.as_slice(), left)?;
    let own_right = moved(alloc, remade.lits.as_slice(), right)?;
    let told = same_words(
        alloc,
        &remade.aig,
        own_left.as_slice(),
        own_right.as_slice(),
        terms,
    )?;
    match told {
        Words::Same => Ok(true),
        _ => Ok(false),
    }
}

/// All functions of the graph in a new one, in which nodes are these carries where that is proved.
fn remade_by(alloc: Global, old: &Aig, carries: &[Option<Carry>]) -> Result<Remade, NoMemory>
    ensures { IfOk result (λ w. IsRemade old.now w (length old.now)) }
{
    let effort = Effort {
        conflicts: CONFLICTS,
        searches: true,
    };
    let mut remade = Remade {
        aig: Aig::new(alloc)?,
        lits: Vec::new(alloc),
        levels: Vec::new(alloc),
        budget: Budget::new(effort, old.size()),
    };
    for n in 0..old.size() {
        let carry = carries.get(n as usize).copied().unwrap_or(None);
        remade.put_next(alloc, old, n, carry)?;
    }
    Ok(remade)
}

impl Remade {
    /// Puts the literal for the next node behind the others.
    fn put_next(
        &mut self,
        alloc: Global,
        old: &Aig,
        n: u32,
        carry: Option<Carry>,
    ) -> Result<(), NoMemory>
        requires node { n < length old.now }
        requires remade { IsRemade old.now self.old n }
        ensures { OnOk result (IsRemade old.now self.new (n + 1)) }
    {
        let own = put_node(&mut self.aig, old, n, self.lits.as_slice())?;
        let lit = self.carried(alloc, own, carry)?;
        self.lits.push(lit)?;
        Ok(())
    }

    /// The majority that the literal is, if that is proved; else itself.
    fn carried(&mut self, alloc: Global, own: Lit, carry: Option<Carry>) -> Result<Lit, NoMemory>
        requires { own.0 < 2 * length self.old.aig }
        ensures grows { Grows self.old.aig self.new.aig }
        ensures lits { self.new.lits.items ≡ self.old.lits.items }
        ensures within { IfOk result (λ y. y.0 < 2 * length self.new.aig) }
        ensures same { IfOk result (λ y. Agree self.new.aig own.0 y.0) }
    {
        let Some(carry) = carry else {
            return Ok(own);
        };
        let made = majority_of(&mut self.aig, self.lits.as_slice(), carry)?;
        self.aig.keeps();
        if made.0 >= 2 * self.aig.size() || made == own {
            return Ok(own);
        }
        note_levels(&self.aig, &mut self.levels)?;
        let levels = self.levels.as_slice();
        match prove(alloc, &self.aig, levels, own, made, &mut self.budget)? {
            Proved::Same => Ok(made),
            _ => Ok(own),
        }
    }
}

/// The majority of the carry's literals, by those for their nodes.
fn majority_of(graph: &mut Aig, lits: &[Lit], carry: Carry) -> Result<Lit, NoMemory>
    ensures { Grows graph.old graph.new }
{
    let first = known_for(lits, carry.first);
    let second = known_for(lits, carry.second);
    let third = known_for(lits, carry.third);
    let made = majority(graph, first, second, third)?;
    Ok(if carry.complement {
        Aig::not(made)
    } else {
        made
    })
}

/// Puts the levels of the nodes that have none yet.
fn note_levels(graph: &Aig, levels: &mut Vec<u32>) -> Result<(), NoMemory> {
    let first = levels.len().min(ROOM as usize) as u32;
    for n in first..graph.size() {
        let level = match graph.node(n) {
            Node::And(l, r) => level_of(levels.as_slice(), l)
                .max(level_of(levels.as_slice(), r))
                .saturating_add(1),
            _ => 0,
        };
        levels.push(level)?;
    }
    Ok(())
}

/// The level of the literal's node.
fn level_of(levels: &[u32], l: Lit) -> u32 {
    levels.get(l.node() as usize).copied().unwrap_or(0)
}

/// The literal for a node of the old graph, where those for the nodes before it are given.
fn put_node(graph: &mut Aig, old: &Aig, n: u32, lits: &[Lit]) -> Result<Lit, NoMemory>
    requires node { n < length old.now }
    requires each { length lits.now ≡ n }
    requires stand { AreStandIns old.now graph.old lits.now }
    ensures grows { Grows graph.old graph.new }
    ensures stands { IfOk result (λ x. StandsFor plainly old.now graph.new (2 * n) x.0) }
{
    if graph.size() >= ROOM {
        return Err(NoMemory);
    }
    match old.node(n) {
        Node::Constant => Ok(zero(graph)),
        Node::Input(v) => {
            if v == u32::MAX {
                return Err(NoMemory);
            }
            graph.input(v)
        }
        Node::And(l, r) => graph.and(literal_for(lits, l), literal_for(lits, r)),
    }
}

/// The literal for one of the old graph, 0 where there is none.
fn known_for(lits: &[Lit], l: Lit) -> Lit {
    if l.node() as usize >= lits.len() {
        return Lit::FALSE;
    }
    literal_for(lits, l)
}

/// The literal for one of the old graph.
fn literal_for(lits: &[Lit], l: Lit) -> Lit
    requires { l.0 < 2 * length lits.now }
    ensures { (g h : List Node) → AreStandIns g h lits.now → StandsFor plainly g h l.0 result.0 }
{
    signed(lits[(l.0 / 2) as usize], l)
}

/// The same of each of a word.
fn moved(alloc: Global, lits: &[Lit], word: &[Lit]) -> Result<Vec<Lit>, NoMemory>
    requires { All (λ l. l.0 < 2 * length lits.now) word.now }
    ensures { IfOk result (λ made. (g h : List Node) → AreStandIns g h lits.now → StandForEach g h word.now made.items) }
{
    let mut made = Vec::new(alloc);
    for i in 0..word.len() {
        made.push(literal_for(lits, word[i]))?;
    }
    Ok(made)
}
