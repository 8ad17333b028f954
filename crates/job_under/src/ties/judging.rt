//! Two nets compared by ties of signals under a third.

ghost use Rattle.std.specs.Prelude.{◌≡◌, ◌≤◌, ◌<◌, None, [], ◌∷◌, length, map, IfOk};
ghost use Rattle.circuit_theory.specs.Interface.{first_mismatch, shared_inputs, AreOrders};
ghost use Rattle.flat_net.specs.declared.parts.Port.{Port};
ghost use Rattle.flat_net.specs.Comparable.{IsComparable};
ghost use Rattle.flat_net.specs.View.{ports_of};
ghost use Rattle.assume_queries.specs.assume_sequences.assume_taken.Premises.{IsPremiseOf};
ghost use Rattle.job_base.specs.declared.finding.Judgement.TheVariants as judgement;
ghost use Rattle.signal_induct.specs.Tied.{first_apart};
ghost use Rattle.job_signals.specs.Judged.{judgement_of};
ghost use Rattle.job_under.specs.ties.Judged.{ties_text};
ghost use Rattle.job_under.specs.ties.Ends.{AreJudgedBy, oversized};

use crate::judging::{Judged, judged_limit};
use crate::ties::report::report_ties;
use assume_queries::assume_sequences::Premise;
use assume_queries::assume_sequences::assume_taken::{Taken, take};
use base_tables::PlaceTable;
use cycle_search::mismatch_of;
use cycle_under::UnderError;
use flat_net::Net;
use induct::InductError;
use job_base::{Judgement, Proofs};
use sec_base::{MAX_CONFLICTS, NoMemory, Orders, Word};
use sec_setup::{interface, shared_names};
use signal_induct::{SignalInduction, TiedPair, first_apart, induct_where};
use signal_refine::Assumed;
use std::alloc::Global;

/// Compares the circuits under the assumption, where their interfaces match. It refuses, in this order: interfaces that don't match; the first
/// fault of `c` as an assumption on the inputs of both; a `c` that no row of inputs meets; the size of A, of B. Where it isn't decided whether
/// some row meets `c`, nothing is compared.
pub fn judge_ties(
    alloc: Global,
    a: &Net,
    b: &Net,
    c: &Net,
    conflicts: u32,
) -> Result<Judged, UnderError>
    requires left { IsComparable a.now }
    requires right { IsComparable b.now }
    requires assumed { IsComparable c.now }
    requires conflicts { conflicts ≤ MAX_CONFLICTS }
    ensures { AreJudgedBy a.now b.now c.now conflicts result }
{
    let shared = match shared_names(alloc, a, b) {
        Ok(shared) => shared,
        Err(error) => return Err(UnderError::from(mismatch_of(error))),
    };
    let taken = take(alloc, c, &shared, conflicts)?;
    match taken {
        Taken::Met(premise) => {
            let judged = judge_where(alloc, a, b, c, &premise, conflicts)?;
            Ok(judged)
        }
        Taken::Limit(proof) => {
            let judged = judged_limit(alloc, a, b, name_of(c), proof, conflicts)?;
            Ok(judged)
        }
    }
}

/// Compares them under the assumption with this premise.
fn judge_where(
    alloc: Global,
    a: &Net,
    b: &Net,
    c: &Net,
    premise: &Premise,
    conflicts: u32,
) -> Result<Judged, UnderError>
    requires left { IsComparable a.now }
    requires right { IsComparable b.now }
    requires matches { first_mismatch (ports_of a.now) (ports_of b.now) ≡ None }
    requires premise { IsPremiseOf (shared_inputs (ports_of a.now) (ports_of b.now)) c.now (length (shared_inputs (ports_of a.now) (ports_of b.now))) premise.now }
    ensures { AreJudgedBy a.now b.now c.now conflicts result }
{
    let orders = match interface(alloc, a, b) {
        Ok(orders) => orders,
        Err(error) => return Err(UnderError::from(mismatch_of(error))),
    };
    tie_under(alloc, a, b, c, premise, &orders, conflicts)
}

/// The same where inputs have these numbers.
fn tie_under(
    alloc: Global,
    a: &Net,
    b: &Net,
    c: &Net,
    premise: &Premise,
    orders: &Orders,
    conflicts: u32,
) -> Result<Judged, UnderError>
    requires right { IsComparable b.now }
    requires matches { first_mismatch (ports_of a.now) (ports_of b.now) ≡ None }
    requires premise { IsPremiseOf (shared_inputs (ports_of a.now) (ports_of b.now)) c.now (length (shared_inputs (ports_of a.now) (ports_of b.now))) premise.now }
    requires orders { AreOrders (ports_of a.now) (ports_of b.now) orders.now.left orders.now.right }
    ensures { AreJudgedBy a.now b.now c.now conflicts result }
{
    premise.own.aig.keeps();
    let numbers = numbers_of(alloc, &premise.own.places)?;
    let assumed = assumed_of(premise, &numbers);
    let made = match induct_where(alloc, a, b, orders, &assumed, conflicts) {
        Ok(made) => made,
        Err(error) => return Err(oversized(error)),
    };
    let judged = judged_ties(alloc, a, b, name_of(c), &made)?;
    Ok(judged)
}

/// The assumption, whose variables are inputs with these numbers.
fn assumed_of<'a>(premise: &'a Premise, numbers: &'a [u32]) -> Assumed<'a>
    ensures graph { result.graph.now ≡ premise.now.own.aig }
    ensures lit { result.lit.0 ≡ premise.now.own.function.lit.0 }
    ensures numbers { result.numbers.now ≡ numbers.now }
{
    Assumed {
        graph: &premise.own.aig,
        lit: premise.own.function.lit,
        numbers,
        row: premise.meeting.as_slice(),
    }
}

/// The name of the output of a net that has one.
fn name_of(c: &Net) -> &Word
    requires { 0 < length c.now.outputs }
    ensures { (p : Port) → c.now.outputs ≡ p ∷ [] → result.now ≡ p.name }
{
    &c.outputs()[0].name
}

/// The number of each variable's input.
fn numbers_of(alloc: Global, places: &PlaceTable) -> Result<Vec<u32>, NoMemory>
    ensures { IfOk result (λ numbers. numbers.items ≡ map (λ p. p.0) places.now) }
{
    let mut numbers = Vec::new(alloc);
    for v in 0..places.len() {
        let (number, _) = places.pair(v);
        numbers.push(number)?;
    }
    Ok(numbers)
}

/// The refusal of a circuit that is too large.
fn oversized(error: InductError) -> UnderError
    ensures { result ≡ oversized error }
{
    match error {
        InductError::TooLarge(side) => UnderError::TooLarge(side),
        InductError::NoMemory => UnderError::NoMemory,
    }
}

/// What is told of what was made.
fn judged_ties(
    alloc: Global,
    a: &Net,
    b: &Net,
    name: &Word,
    made: &SignalInduction,
) -> Result<Judged, NoMemory>
    ensures judgement { IfOk result (λ j. j.judgement ≡ judgement_of (first_apart made.now.pairs)) }
    ensures proofs { IfOk result (λ j. j.proofs ≡ []) }
    ensures text { IfOk result (λ j. j.text ≡ ties_text name.now a.now b.now made.now) }
{
    let text = report_ties(alloc, a, b, name, made)?;
    let judgement = judgement_of(made.pairs.as_slice());
    Ok(Judged {
        judgement,
        proofs: Proofs::new(alloc),
        text,
    })
}

fn judgement_of(pairs: &[TiedPair]) -> Judgement
    ensures { result ≡ judgement_of (first_apart pairs.now) }
{
    match first_apart(pairs) {
        None => Judgement::Equal,
        Some(_) => Judgement::NotShown,
    }
}
