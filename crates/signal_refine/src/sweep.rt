//! Whether the ties hold in a cycle, node by node.

ghost use Rattle.std.specs.Prelude.{◌≡◌, ℕ, false, ◌*◌, ◌<◌, length, All, IfOk, IfSome, OnOk, IsTrue};
ghost use Rattle.aig.specs.Graph.{Grows};
ghost use Rattle.circuit_laws.specs.declared.signal_laws.anchor.Anchor.TheVariants.{Place};
ghost use Rattle.signal_refine.specs.Asking.{AreKnown, AreHeldWithin, IsShown, IsSwept, AreShown};

use crate::anchors::anchor_literal;
use crate::ask::{Answer, Asked, ask};
use crate::copies::{node_literal, read_for};
use crate::facts::Facts;
use aig::Lit;
use circuit_laws::signal_laws::Anchor;
use sec_base::NoMemory;
use std::alloc::Global;
use tie_candidates::{Classes, learn, no_model};

/// How often 64 assignments are drawn before the first query.
const DRAWS: usize = 16;

/// Whether all ties are shown, where assignments that are drawn don't split the classes.
pub(crate) fn are_settled(
    alloc: Global,
    classes: &mut Classes,
    facts: &mut Facts,
    asked: &Asked<'_>,
    anchors: &[Anchor],
) -> Result<bool, NoMemory>
    requires known { AreKnown facts.old }
    requires held { AreHeldWithin asked.now.care asked.now.before.now facts.old.aig }
    requires leaves { All (λ x. x.0 < 2 * length facts.old.aig) asked.now.leaves.now }
    ensures shown { IfOk result (λ same. IsTrue same → AreShown asked.now.base.now asked.now.leaves.now asked.now.care asked.now.before.now anchors.now facts.old.aig) }
    ensures known { OnOk result (AreKnown facts.new) }
{
    if is_split(alloc, classes, asked)? {
        return Ok(false);
    }
    facts.begin(asked.conflicts);
    settle(alloc, classes, facts, asked, anchors)
}

/// Whether all ties are shown. Each node is made of what those before it are read as: of its anchor's literal, where the tie is shown.
/// Where one isn't, the classes are split by what tells it apart, or its node is put into a class of its own.
fn settle(
    alloc: Global,
    classes: &mut Classes,
    facts: &mut Facts,
    asked: &Asked<'_>,
    anchors: &[Anchor],
) -> Result<bool, NoMemory>
    requires known { AreKnown facts.old }
    requires held { AreHeldWithin asked.now.care asked.now.before.now facts.old.aig }
    requires leaves { All (λ x. x.0 < 2 * length facts.old.aig) asked.now.leaves.now }
    ensures shown { IfOk result (λ same. IsTrue same → AreShown asked.now.base.now asked.now.leaves.now asked.now.care asked.now.before.now anchors.now facts.old.aig) }
    ensures known { OnOk result (AreKnown facts.new) }
{
    let mut read = Vec::new(alloc);
    let mut same = anchors.len() <= asked.base.size() as usize;
    for n in 0..asked.base.size() {
        let shown = sweep_node(alloc, classes, facts, asked, anchors, &mut read, n)?;
        same = both(same, shown);
    }
    Ok(same)
}

/// Whether assignments that are drawn split the classes.
fn is_split(alloc: Global, classes: &mut Classes, asked: &Asked<'_>) -> Result<bool, NoMemory> {
    let mut split = false;
    for _n in 0..DRAWS {
        let lesson = learn(alloc, classes, &asked.frame(), &no_model(alloc))?;
        split |= lesson.splits;
    }
    Ok(split)
}

/// Puts what the node of this number is read as behind the others: its anchor's literal, where its tie is shown, and else its own.
fn sweep_node(
    alloc: Global,
    classes: &mut Classes,
    facts: &mut Facts,
    asked: &Asked<'_>,
    anchors: &[Anchor],
    read: &mut Vec<Lit>,
    n: u32,
) -> Result<bool, NoMemory>
    requires known { AreKnown facts.old }
    requires held { AreHeldWithin asked.now.care asked.now.before.now facts.old.aig }
    requires leaves { All (λ x. x.0 < 2 * length facts.old.aig) asked.now.leaves.now }
    requires node { n < length asked.now.base.now }
    requires each { length read.old.items ≡ n }
    requires within { All (λ x. x.0 < 2 * length facts.old.aig) read.old.items }
    ensures swept { IfOk result (λ same. IsSwept asked.now.base.now asked.now.leaves.now asked.now.care asked.now.before.now anchors.now facts.old.aig read.old.items n same facts.new.aig read.new.items) }
    ensures known { OnOk result (AreKnown facts.new) }
{
    let made = node_literal(&mut facts.aig, asked.base, asked.leaves, read, n)?;
    let kept = facts.kept_for(made);
    let own = read_for(asked.before, asked.places, kept);
    let shown = try_tie(alloc, classes, facts, asked, anchors, read, own)?;
    match shown {
        Some(lit) => {
            read.push(lit)?;
            Ok(true)
        }
        None => {
            read.push(own)?;
            Ok(false)
        }
    }
}

/// The literal that the node of this number is read as by its tie, where this is its own one and the tie is shown.
fn try_tie(
    alloc: Global,
    classes: &mut Classes,
    facts: &mut Facts,
    asked: &Asked<'_>,
    anchors: &[Anchor],
    read: &[Lit],
    own: Lit,
) -> Result<Option<Lit>, NoMemory>
    requires known { AreKnown facts.old }
    requires held { AreHeldWithin asked.now.care asked.now.before.now facts.old.aig }
    requires own { own.0 < 2 * length facts.old.aig }
    requires within { All (λ x. x.0 < 2 * length facts.old.aig) read.now }
    ensures shown { IfOk result (λ o. IfSome o (IsShown asked.now.base.now read.now asked.now.care asked.now.before.now anchors.now facts.old.aig own facts.new.aig)) }
    ensures within { IfOk result (λ o. IfSome o (λ l. l.0 < 2 * length facts.new.aig)) }
    ensures grows { OnOk result (Grows facts.old.aig facts.new.aig) }
    ensures known { OnOk result (AreKnown facts.new) }
{
    facts.aig.keeps();
    let n = read.len();
    if n >= anchors.len() || is_own(anchors[n], n) {
        return Ok(Some(own));
    }
    if !classes.asks(n, anchors[n]) {
        return Ok(None);
    }
    let Some(other) = anchor_literal(read, anchors[n]) else {
        return Ok(None);
    };
    let answer = ask(alloc, classes, facts, asked, own, other)?;
    match answer {
        Answer::Same => Ok(Some(other)),
        _ => {
            part(classes)?;
            Ok(None)
        }
    }
}

/// Puts the node that was asked last into a class of its own, where it isn't told apart.
fn part(classes: &mut Classes) -> Result<(), NoMemory> {
    if classes.is_apart() {
        return Ok(());
    }
    classes.drop_tie()
}

/// Whether the anchor is the place itself.
fn is_own(anchor: Anchor, n: usize) -> bool
    ensures { IsTrue result → anchor ≡ Place n false }
{
    match anchor {
        Anchor::Bit(_) => false,
        Anchor::Place { place, flipped } => place == n && !flipped,
    }
}

/// Whether both hold.
fn both(one: bool, other: bool) -> bool
    ensures one { IsTrue result → IsTrue one }
    ensures other { IsTrue result → IsTrue other }
{
    one && other
}
