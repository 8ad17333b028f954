//! Whether two literals are one, by queries over a graph.

ghost use Rattle.std.specs.Prelude.{◌≡◌, ℕ, Bool, true, false, ◌*◌, ◌<◌, length, All, IfOk, OnOk};
ghost use Rattle.aig.specs.Graph.{Grows};
ghost use Rattle.aig.specs.Values.{value};
ghost use Rattle.swept_queries.specs.declared.node_agreement.proof.Proved.TheVariants as proved;
ghost use Rattle.signal_refine.specs.declared.ask.Answer.TheVariants as answer;
ghost use Rattle.signal_refine.specs.Asking.{same_bit, IsCare, AreKnown, AreHeldWithin, IsOneWhere};

use crate::assumed::{Assumed, and_both};
use crate::copies::NodeLits;
use crate::facts::Facts;
use crate::leaves::is_full;
use aig::{Aig, Lit};
use circuit_laws::signal_laws::Anchor;
use sec_base::NoMemory;
use std::alloc::Global;
use sweep_candidates::Model;
use swept_queries::node_agreement::Proved;
use tie_candidates::{Classes, Frame, Substitution, learn};

/// What is asked: of the nodes of `base`, whose variables have these literals, wherever the care is 1 and what nodes are read as in the cycle
/// before has their values, with at most so many conflicts for each query.
#[derive(Clone, Copy)]
pub(crate) struct Asked<'a> {
    pub base: &'a Aig,
    pub leaves: &'a [Lit],
    pub care: Lit,
    pub before: &'a NodeLits,
    /// By what nodes are read so in the cycle before. No contract knows it.
    pub ties: &'a [Anchor],
    /// Which variables have the values of gates then. No contract knows it.
    pub gates: &'a Substitution,
    /// At which place a node of the graph is read as another one in the cycle before. No contract knows it.
    pub places: &'a [usize],
    /// What the care says. No contract knows it.
    pub assumed: Assumed<'a>,
    /// An input's variable is this and its number together. No contract knows it.
    pub inputs: u32,
    pub conflicts: u32,
}

impl<'a> Asked<'a> {
    /// As guesses see it.
    pub(crate) fn frame(&self) -> Frame<'a> {
        Frame {
            base: self.base,
            ties: self.ties,
            gates: self.gates,
            premise: self.assumed.premise(),
            inputs: self.inputs,
        }
    }
}

/// What came of a query.
#[derive(Clone, Copy)]
pub(crate) enum Answer {
    Same,
    /// The classes were split by what tells them apart.
    Apart,
    Open,
}

/// The literal that is 1 where the two are one.
fn equal(aig: &mut Aig, l: Lit, r: Lit) -> Result<Lit, NoMemory>
    requires left { l.0 < 2 * length aig.old }
    requires right { r.0 < 2 * length aig.old }
    ensures value { IfOk result (λ x. (a : ℕ → Bool) → value aig.new a x.0 ≡ same_bit (value aig.old a l.0) (value aig.old a r.0)) }
    ensures within { IfOk result (λ x. x.0 < 2 * length aig.new) }
    ensures grows { OnOk result (Grows aig.old aig.new) }
{
    if is_full(aig) {
        return Err(NoMemory);
    }
    let one = aig.and(l, Aig::not(r))?;
    let other = aig.and(Aig::not(l), r)?;
    aig.and(Aig::not(one), Aig::not(other))
}

/// The and of the equalities of the literals at each place of both lists that is picked.
fn care_of(aig: &mut Aig, own: &[Lit], read: &[Lit], picked: &[bool]) -> Result<Lit, NoMemory>
    requires own { All (λ x. x.0 < 2 * length aig.old) own.now }
    requires read { All (λ x. x.0 < 2 * length aig.old) read.now }
    ensures care { IfOk result (λ x. IsCare own.now read.now aig.new x) }
    ensures within { IfOk result (λ x. x.0 < 2 * length aig.new) }
    ensures grows { OnOk result (Grows aig.old aig.new) }
{
    aig.keeps();
    let mut care = Lit::TRUE;
    for i in 0..own.len().min(read.len()) {
        let is_picked = picked.get(i).copied().unwrap_or(false);
        care = narrowed(aig, care, own[i], read[i], is_picked)?;
    }
    Ok(care)
}

/// The care, where the two are one as well, if that is picked.
fn narrowed(aig: &mut Aig, care: Lit, l: Lit, r: Lit, is_picked: bool) -> Result<Lit, NoMemory>
    requires care { care.0 < 2 * length aig.old }
    requires left { l.0 < 2 * length aig.old }
    requires right { r.0 < 2 * length aig.old }
    ensures value { IfOk result (λ x. (a : ℕ → Bool) → value aig.old a care.0 ≡ true → value aig.old a l.0 ≡ value aig.old a r.0 → value aig.new a x.0 ≡ true) }
    ensures within { IfOk result (λ x. x.0 < 2 * length aig.new) }
    ensures grows { OnOk result (Grows aig.old aig.new) }
{
    if !is_picked || l.0 == r.0 {
        return Ok(care);
    }
    let same = equal(aig, l, r)?;
    if is_full(aig) {
        return Err(NoMemory);
    }
    aig.and(care, same)
}

/// How many equalities are picked at first.
const PICKED: usize = 4;

/// How often more are picked.
const TURNS: usize = 10;

/// Whether the two literals are one wherever what is asked holds. First no equality of the cycle before is asked to hold; where an assignment
/// tells the two apart that doesn't count, some that it breaks are.
pub(crate) fn ask(
    alloc: Global,
    classes: &mut Classes,
    facts: &mut Facts,
    asked: &Asked<'_>,
    l: Lit,
    r: Lit,
) -> Result<Answer, NoMemory>
    requires known { AreKnown facts.old }
    requires held { AreHeldWithin asked.now.care asked.now.before.now facts.old.aig }
    requires left { l.0 < 2 * length facts.old.aig }
    requires right { r.0 < 2 * length facts.old.aig }
    ensures same { IfOk result (λ p. p ≡ answer.Same → IsOneWhere asked.now.care asked.now.before.now facts.old.aig l r) }
    ensures grows { OnOk result (Grows facts.old.aig facts.new.aig) }
    ensures known { OnOk result (AreKnown facts.new) }
{
    if l.0 == r.0 {
        return Ok(Answer::Same);
    }
    classes.begin_picking(alloc, asked.before.own.len())?;
    match facts.prove_one(alloc, l, r)? {
        Proved::Same => return Ok(Answer::Same),
        told => {
            if tells(alloc, classes, asked, &told, PICKED)? {
                return Ok(Answer::Apart);
            }
        }
    }
    ask_in_turns(alloc, classes, facts, asked, l, r)
}

/// Whether an assignment was found by which they are told apart. Else some equalities more are picked, at most so many.
fn tells(
    alloc: Global,
    classes: &mut Classes,
    asked: &Asked<'_>,
    told: &Proved,
    most: usize,
) -> Result<bool, NoMemory> {
    let Proved::Apart(model) = told else {
        return Ok(false);
    };
    let lesson = learn(alloc, classes, &asked.frame(), model)?;
    if lesson.tells {
        return Ok(true);
    }
    classes.pick(&lesson.marks, most);
    Ok(false)
}

/// The same, by one query after the other under the equalities that are picked.
fn ask_in_turns(
    alloc: Global,
    classes: &mut Classes,
    facts: &mut Facts,
    asked: &Asked<'_>,
    l: Lit,
    r: Lit,
) -> Result<Answer, NoMemory>
    requires known { AreKnown facts.old }
    requires held { AreHeldWithin asked.now.care asked.now.before.now facts.old.aig }
    requires left { l.0 < 2 * length facts.old.aig }
    requires right { r.0 < 2 * length facts.old.aig }
    ensures same { IfOk result (λ p. p ≡ answer.Same → IsOneWhere asked.now.care asked.now.before.now facts.old.aig l r) }
    ensures grows { OnOk result (Grows facts.old.aig facts.new.aig) }
    ensures known { OnOk result (AreKnown facts.new) }
{
    for turn in 0..TURNS {
        if turn == TURNS - 1 {
            classes.pick_all();
        }
        match ask_under(alloc, facts, asked, classes.picked(), l, r)? {
            Proved::Same => return Ok(Answer::Same),
            Proved::Open => return Ok(Answer::Open),
            told => {
                if tells(alloc, classes, asked, &told, PICKED << turn)? {
                    return Ok(Answer::Apart);
                }
            }
        }
    }
    Ok(Answer::Open)
}

/// The same, by the equalities that are picked.
fn ask_under(
    alloc: Global,
    facts: &mut Facts,
    asked: &Asked<'_>,
    picked: &[bool],
    l: Lit,
    r: Lit,
) -> Result<Proved, NoMemory>
    requires known { AreKnown facts.old }
    requires held { AreHeldWithin asked.now.care asked.now.before.now facts.old.aig }
    requires left { l.0 < 2 * length facts.old.aig }
    requires right { r.0 < 2 * length facts.old.aig }
    ensures same { IfOk result (λ p. p ≡ proved.Same → IsOneWhere asked.now.care asked.now.before.now facts.old.aig l r) }
    ensures grows { OnOk result (Grows facts.old.aig facts.new.aig) }
    ensures known { OnOk result (AreKnown facts.new) }
{
    let apart = apart_under(&mut facts.aig, asked, picked, l, r)?;
    facts.prove_zero(alloc, apart, asked.conflicts)
}

/// The literal that is 1 where the two differ, what is asked holds, and the picked equalities do.
fn apart_under(
    aig: &mut Aig,
    asked: &Asked<'_>,
    picked: &[bool],
    l: Lit,
    r: Lit,
) -> Result<Lit, NoMemory>
    requires held { AreHeldWithin asked.now.care asked.now.before.now aig.old }
    requires left { l.0 < 2 * length aig.old }
    requires right { r.0 < 2 * length aig.old }
    ensures apart { IfOk result (λ x. ((a : ℕ → Bool) → value aig.new a x.0 ≡ false) → IsOneWhere asked.now.care asked.now.before.now aig.old l r) }
    ensures within { IfOk result (λ x. x.0 < 2 * length aig.new) }
    ensures grows { OnOk result (Grows aig.old aig.new) }
{
    let equal_before = care_of(aig, &asked.before.own, &asked.before.read, picked)?;
    let care = and_both(aig, asked.care, equal_before)?;
    let same = equal(aig, l, r)?;
    if is_full(aig) {
        return Err(NoMemory);
    }
    aig.and(care, Aig::not(same))
}
