//! Ties that are left where those that aren't shown are dropped, round after round.

ghost use Rattle.std.specs.Prelude.{◌≡◌, ◌+◌, ◌*◌, ◌^◌, ◌<◌, ◌≤◌, length, All, IfOk, OnOk, IsTrue};
ghost use Rattle.signal_refine.specs.Places.{places_of};
ghost use Rattle.aig.specs.Graph.{Grows};
ghost use Rattle.signal_refine.specs.Asking.{AreKnown};
ghost use Rattle.signal_refine.specs.Assuming.{IsMet, IsStepCare};
ghost use Rattle.signal_refine.specs.Showing.{AreLits, AreReady, AreBelow, Begins, Steps, AreInductiveNodes, AreInductiveTies};

use crate::ahead::put_ahead;
use crate::ask::Asked;
use crate::assumed::{Assumed, and_both, met_literal};
use crate::copies::{NodeLits, carried, copy_of, places_of_own};
use crate::facts::Facts;
use crate::flops::flops_of;
use crate::leaves::{Cycle, Latches, leaves_of};
use crate::nets::SignalNets;
use crate::signals::signal_literals;
use crate::sweep::are_settled;
use crate::told::told_anchors;
use aig::{Aig, Lit};
use circuit_laws::signal_laws::Anchor;
use sec_base::{NoMemory, Orders};
use std::alloc::Global;
use tie_candidates::{Classes, Substitution, candidates};

/// How many signals are looked at first for flip-flops that were moved.
const LARGE: usize = 4096;

/// Ties that are an inductive invariant.
#[derive(Drop)]
pub struct Correspondence {
    /// What each signal is tied to, by its place; of itself, where it is tied to nothing. Empty where nothing is tied.
    pub anchors: Vec<Anchor>,
    /// How many ties of nodes were dropped since a query met the limit.
    pub drops: u32,
}

/// Two nets' signals as literals of a graph, of whose nodes ties are shown. Its variables are the inputs' numbers, and from `first` on the
/// latches'.
#[derive(Clone, Copy)]
struct Round<'a> {
    nets: SignalNets<'a>,
    assumed: Assumed<'a>,
    base: &'a Aig,
    lits: &'a [Lit],
    first: u32,
    conflicts: u32,
}

/// Guesses ties, and drops those that aren't shown where the assumption is met, with at most so many conflicts for each query, until all that
/// are left are shown. If asked, what reads latches alone is tied by its value in the next cycle too.
pub fn correspond(
    alloc: Global,
    nets: &SignalNets<'_>,
    assumed: &Assumed<'_>,
    conflicts: u32,
    ahead: bool,
) -> Result<Correspondence, NoMemory>
    requires ready { AreReady nets.now }
    requires assumed { assumed.now.lit.0 < 2 * length assumed.now.graph.now }
    ensures { IfOk result (λ made. AreInductiveTies (IsMet assumed.now nets.now) nets.now made.anchors.items) }
{
    nets.left.keeps();
    nets.right.keeps();
    let first = first_latch(nets.orders);
    let mut base = Aig::new(alloc)?;
    let lits = put_signals(alloc, &mut base, nets, first, ahead)?;
    let round = Round {
        nets: *nets,
        assumed: *assumed,
        base: &base,
        lits: &lits,
        first,
        conflicts,
    };
    rounds(alloc, &round)
}

/// Whether many flip-flops of the two nets look as if they had been moved, so that values in the next cycle should be tied at once. It is a
/// guess, for nets of thousands of signals.
pub fn are_moved(
    alloc: Global,
    nets: &SignalNets<'_>,
    assumed: &Assumed<'_>,
) -> Result<bool, NoMemory>
    requires { AreReady nets.now }
{
    nets.left.keeps();
    nets.right.keeps();
    if nets.places() < LARGE {
        return Ok(false);
    }
    let first = first_latch(nets.orders);
    let mut base = Aig::new(alloc)?;
    let lits = put_signals(alloc, &mut base, nets, first, false)?;
    let round = Round {
        nets: *nets,
        assumed: *assumed,
        base: &base,
        lits: &lits,
        first,
        conflicts: 0,
    };
    guessed(alloc, &round)?.are_apart(alloc, &base, first)
}

/// The signals' literals of the graph; if asked, with what nodes that read latches alone have in the next cycle as further nodes.
fn put_signals(
    alloc: Global,
    base: &mut Aig,
    nets: &SignalNets<'_>,
    first: u32,
    ahead: bool,
) -> Result<Vec<Lit>, NoMemory>
    requires ready { AreReady nets.now }
    requires first { AreBelow nets.now first }
    ensures { IfOk result (λ lits. AreLits nets.now first base.new lits.items) }
{
    let cycle = Cycle {
        nets: *nets,
        inputs: 0,
        first,
        latches: Latches::Free,
    };
    let lits = signal_literals(alloc, base, &cycle)?;
    if !ahead {
        return Ok(lits);
    }
    let flops = flops_of(alloc, nets, &lits, first)?;
    put_ahead(alloc, base, &flops)?;
    Ok(lits)
}

/// The ties that are left behind the last round.
fn rounds(alloc: Global, round: &Round<'_>) -> Result<Correspondence, NoMemory>
    requires ready { AreReady round.now.nets }
    requires first { AreBelow round.now.nets round.now.first }
    requires lits { AreLits round.now.nets round.now.first round.now.base.now round.now.lits.now }
    requires assumed { round.now.assumed.lit.0 < 2 * length round.now.assumed.graph.now }
    ensures { IfOk result (λ made. AreInductiveTies (IsMet round.now.assumed round.now.nets) round.now.nets made.anchors.items) }
{
    let mut classes = guessed(alloc, round)?;
    let mut facts = Facts::new(alloc)?;
    for _n in 0..round.base.size() {
        let nodes = classes.anchors(alloc)?;
        if are_shown(alloc, round, &nodes, &mut classes, &mut facts)? {
            return Ok(Correspondence {
                anchors: told_anchors(alloc, round.lits, &nodes)?,
                drops: classes.drops,
            });
        }
    }
    Ok(Correspondence {
        anchors: Vec::new(alloc),
        drops: classes.drops,
    })
}

/// The classes of nodes that seeded runs don't tell apart.
fn guessed(alloc: Global, round: &Round<'_>) -> Result<Classes, NoMemory> {
    let flops = flops_of(alloc, &round.nets, round.lits, round.first)?;
    let premise = round.assumed.premise();
    candidates(alloc, flops, &premise, round.base, round.first)
}

/// Whether the ties of nodes are an inductive invariant, by queries that all say so.
fn are_shown(
    alloc: Global,
    round: &Round<'_>,
    nodes: &[Anchor],
    classes: &mut Classes,
    facts: &mut Facts,
) -> Result<bool, NoMemory>
    requires known { AreKnown facts.old }
    requires ready { AreReady round.now.nets }
    requires first { AreBelow round.now.nets round.now.first }
    requires lits { AreLits round.now.nets round.now.first round.now.base.now round.now.lits.now }
    requires assumed { round.now.assumed.lit.0 < 2 * length round.now.assumed.graph.now }
    ensures shown { IfOk result (λ shown. IsTrue shown → AreInductiveNodes (IsMet round.now.assumed round.now.nets) round.now.nets round.now.first round.now.base.now nodes.now) }
    ensures known { OnOk result (AreKnown facts.new) }
{
    let kept = do_step(alloc, round, nodes, classes, facts)?;
    if kept {
        return do_begin(alloc, round, nodes, classes, facts);
    }
    Ok(false)
}

/// Whether the ties hold in each cycle that follows on one in which they hold.
fn do_step(
    alloc: Global,
    round: &Round<'_>,
    nodes: &[Anchor],
    classes: &mut Classes,
    facts: &mut Facts,
) -> Result<bool, NoMemory>
    requires known { AreKnown facts.old }
    requires ready { AreReady round.now.nets }
    requires first { AreBelow round.now.nets round.now.first }
    requires lits { AreLits round.now.nets round.now.first round.now.base.now round.now.lits.now }
    requires assumed { round.now.assumed.lit.0 < 2 * length round.now.assumed.graph.now }
    ensures steps { IfOk result (λ kept. IsTrue kept → Steps (IsMet round.now.assumed round.now.nets) round.now.nets round.now.first round.now.base.now nodes.now) }
    ensures known { OnOk result (AreKnown facts.new) }
{
    facts.aig.keeps();
    let cycle = Cycle {
        nets: round.nets,
        inputs: 0,
        first: round.first,
        latches: Latches::Free,
    };
    let leaves = leaves_of(alloc, &mut facts.aig, &cycle, round.count())?;
    let now = copy_of(alloc, &mut facts.aig, round.base, &leaves, nodes)?;
    let before = carried(alloc, &now.read, round.lits)?;
    let later = Cycle {
        nets: round.nets,
        inputs: round.first + round.nets.places() as u32,
        first: round.first,
        latches: Latches::Carried(&before),
    };
    let next = leaves_of(alloc, &mut facts.aig, &later, round.count())?;
    let care = step_care(alloc, &mut facts.aig, round, &leaves, &next)?;
    let gates = Substitution::of(alloc, round.base, nodes)?;
    let places = places_of_own(alloc, &now, facts.aig.size())?;
    let asked = Asked {
        base: round.base,
        leaves: &next,
        care,
        before: &now,
        ties: nodes,
        gates: &gates,
        places: &places,
        assumed: round.assumed,
        inputs: later.inputs,
        conflicts: round.conflicts,
    };
    are_settled(alloc, classes, facts, &asked, nodes)
}

/// What is 1 where the assumption is met in this cycle and in the next one.
fn step_care(
    alloc: Global,
    aig: &mut Aig,
    round: &Round<'_>,
    leaves: &[Lit],
    next: &[Lit],
) -> Result<Lit, NoMemory>
    requires assumed { round.now.assumed.lit.0 < 2 * length round.now.assumed.graph.now }
    requires leaves { All (λ x. x.0 < 2 * length aig.old) leaves.now }
    requires next { All (λ x. x.0 < 2 * length aig.old) next.now }
    ensures care { IfOk result (λ x. IsStepCare round.now.assumed leaves.now next.now aig.old aig.new x) }
    ensures within { IfOk result (λ x. x.0 < 2 * length aig.new) }
    ensures grows { OnOk result (Grows aig.old aig.new) }
{
    let here = met_literal(alloc, aig, &round.assumed, leaves)?;
    let later = met_literal(alloc, aig, &round.assumed, next)?;
    let met = and_both(aig, here, later)?;
    Ok(met)
}

/// Whether the ties hold in each cycle in which latches have their initial values.
fn do_begin(
    alloc: Global,
    round: &Round<'_>,
    nodes: &[Anchor],
    classes: &mut Classes,
    facts: &mut Facts,
) -> Result<bool, NoMemory>
    requires known { AreKnown facts.old }
    requires ready { AreReady round.now.nets }
    requires first { AreBelow round.now.nets round.now.first }
    requires assumed { round.now.assumed.lit.0 < 2 * length round.now.assumed.graph.now }
    ensures begins { IfOk result (λ begun. IsTrue begun → Begins (IsMet round.now.assumed round.now.nets) round.now.nets round.now.first round.now.base.now nodes.now) }
    ensures known { OnOk result (AreKnown facts.new) }
{
    facts.aig.keeps();
    let cycle = Cycle {
        nets: round.nets,
        inputs: 0,
        first: round.first,
        latches: Latches::Started,
    };
    let leaves = leaves_of(alloc, &mut facts.aig, &cycle, round.count())?;
    let care = met_literal(alloc, &mut facts.aig, &round.assumed, &leaves)?;
    let before = NodeLits::new(alloc);
    let gates = Substitution::new(alloc);
    let asked = Asked {
        base: round.base,
        leaves: &leaves,
        care,
        before: &before,
        ties: &[],
        gates: &gates,
        places: &[],
        assumed: round.assumed,
        inputs: 0,
        conflicts: round.conflicts,
    };
    are_settled(alloc, classes, facts, &asked, nodes)
}

impl Round<'_> {
    /// How many variables the graph has, of those that inputs and latches have.
    fn count(&self) -> u32
        requires { (self.now.first ≤ 2 ^ 30) × (places_of self.now.nets < 2 ^ 30) }
        ensures { result ≤ self.now.first + places_of self.now.nets }
    {
        self.base.vars().min(self.first + self.nets.places() as u32)
    }
}

/// The first variable above all inputs' numbers.
fn first_latch(orders: &Orders) -> u32
    requires left { All (λ i. i < 2 ^ 30) orders.now.left }
    requires right { All (λ i. i < 2 ^ 30) orders.now.right }
    ensures left { All (λ i. i < result) orders.now.left }
    ensures right { All (λ i. i < result) orders.now.right }
    ensures small { result ≤ 2 ^ 30 }
{
    let left = above(orders.left.as_slice(), 0);
    above(orders.right.as_slice(), left)
}

/// A number above all of these that isn't below the other one.
fn above(numbers: &[u32], least: u32) -> u32
    requires small { All (λ i. i < 2 ^ 30) numbers.now }
    requires least { least ≤ 2 ^ 30 }
    ensures above { All (λ i. i < result) numbers.now }
    ensures least { least ≤ result }
    ensures small { result ≤ 2 ^ 30 }
{
    let mut next = least;
    for i in numbers {
        next = next.max(*i + 1);
    }
    next
}
