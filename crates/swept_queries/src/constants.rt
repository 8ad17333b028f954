//! Nodes that look constant and aren't: what gives one its other value may tell a query apart that nothing drawn does.

ghost use Rattle.std.specs.Prelude.{◌≡◌, ◌*◌, ◌<◌, length, All, IfOk, OnOk};
ghost use Rattle.swept_queries.specs.sweep.aig.Graph.{vars_of};
ghost use Rattle.swept_queries.specs.InStead.{MayBeWithin, AreKnownWithin};

use crate::choice::chosen;
use crate::node_agreement::{Budget, Guide, Hints, Model, Proved, prove_wholly};
use crate::rounds::more_words;
use crate::sides::{Known, Sides};
use crate::sweep::{Aig, Ids, Lit, NoMemory};
use crate::targets::{is_any_left, is_any_told, lits_of};
use crate::words::{put_model, put_models, seeded_words};
use std::alloc::Global;

/// The least conflicts with which constants are looked for.
const LEAST: u32 = 2_000;

/// Eight words for each variable: those that are drawn, with assignments near these models. Where they tell some of the queries apart, others
/// are drawn that tell more. Where they tell none, and assignments near one that gives some node the value that it has under none of them do,
/// the last of the eight are those of these.
pub(crate) fn tried_words(
    alloc: Global,
    aig: &Aig,
    given: &[Option<Sides>],
    models: &[Model],
    conflicts: u32,
) -> Result<Vec<u64>, NoMemory>
    requires { All (MayBeWithin aig.now) given.now }
    ensures { IfOk result (λ words. length words.items ≡ 8 * vars_of aig.now) }
{
    let mut words = seeded_words(alloc, aig.vars())?;
    put_models(words.as_mut_slice(), models);
    let known = chosen(alloc, aig, given, words.as_slice())?;
    if conflicts < LEAST || !is_any_left(known.as_slice()) {
        return Ok(words);
    }
    if is_any_told(known.as_slice()) {
        return more_words(alloc, aig, given, words);
    }
    let cone = cone_of(alloc, aig, known.as_slice())?;
    let mut looks = Looks::new(alloc, aig, words.as_slice())?;
    for n in cone.as_slice() {
        if looks.tells(alloc, aig, given, *n, &mut words)? {
            return Ok(words);
        }
    }
    seeded_words(alloc, aig.vars())
}

/// What the queries read that are to be swept.
fn cone_of(alloc: Global, aig: &Aig, known: &[Known]) -> Result<Ids, NoMemory>
    requires { All (AreKnownWithin aig.now) known.now }
{
    let lits = lits_of(alloc, known, true)?;
    aig.cone(alloc, lits.as_slice())
}

/// The values of all nodes, and what may be spent on those that look constant.
#[derive(Drop)]
struct Looks {
    hints: Hints,
    budget: Budget,
}

impl Looks {
    /// The values under the assignments of these words.
    fn new(alloc: Global, aig: &Aig, words: &[u64]) -> Result<Looks, NoMemory> {
        let mut hints = Hints::new(alloc);
        for n in 0..aig.size() {
            hints.add(aig.node(n), words)?;
        }
        hints.join(alloc, 0)?;
        Ok(Looks {
            hints,
            budget: Budget::for_constants(aig.size()),
        })
    }

    /// Whether assignments near one that gives the node its other value tell a query apart, if it looks constant and isn't. They
    /// become the last words.
    fn tells(
        &mut self,
        alloc: Global,
        aig: &Aig,
        given: &[Option<Sides>],
        n: u32,
        words: &mut Vec<u64>,
    ) -> Result<bool, NoMemory>
        requires given { All (MayBeWithin aig.now) given.now }
        requires words { length words.old.items ≡ 8 * vars_of aig.now }
        ensures { OnOk result (length words.new.items ≡ length words.old.items) }
    {
        let Some(model) = self.model(alloc, aig, n, words.as_slice())? else {
            return Ok(false);
        };
        self.budget.note_walk(u64::from(aig.size() / 16));
        put_model(words.as_mut_slice(), &model, 7);
        let known = chosen(alloc, aig, given, words.as_slice())?;
        Ok(is_any_told(known.as_slice()))
    }

    /// What gives the node its other value, if it looks constant and that is found.
    fn model(
        &mut self,
        alloc: Global,
        aig: &Aig,
        n: u32,
        words: &[u64],
    ) -> Result<Option<Model>, NoMemory> {
        if n == 0 || n >= aig.size() || !self.budget.may_search() {
            return Ok(None);
        }
        let Some(k) = self.hints.candidate(n) else {
            return Ok(None);
        };
        if k.node() != 0 {
            return Ok(None);
        }
        aig.keeps();
        let guide = self.hints.guide();
        match prove_wholly(alloc, aig, &guide, &[], Lit(2 * n), k, &mut self.budget)? {
            Proved::Apart(model) => {
                self.hints.refine(alloc, aig.nodes(), words, &model)?;
                Ok(Some(model))
            }
            _ => Ok(None),
        }
    }
}
