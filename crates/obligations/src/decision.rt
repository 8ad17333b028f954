//! The obligations are decided, one after the other.

ghost use Rattle.std.specs.Prelude.{◌≡◌, ◌+◌, ◌<◌, ◌≤◌, ◌^◌, length, take, IfOk, OnOk};
ghost use Rattle.obligations.specs.Asked.{AreAsked, AreKnown, queries_of};
ghost use Rattle.obligations.specs.Agreed.{AreAgreed};
ghost use Rattle.obligations.specs.Found.{differing};
ghost use Rattle.obligations.specs.Decided.{HaveDecided, IsAnswerOf, IsPut};

use crate::found::{Found, find};
use crate::known::{KnownSides, known_sides};
use crate::names::copy_name;
use crate::obligation::{Difference, Obligation};
use crate::outcome::{Aig, MAX_CONFLICTS, NoMemory, PairAnswer, PairName, PairResult, PairResults};
use std::alloc::Global;
use swept_queries::node_agreement::Model;

/// What is found of all obligations.
#[derive(Drop)]
pub struct Decided {
    /// One result for each, in order.
    pub results: PairResults,
    /// Where the first one differs that is decisive.
    pub different: Option<Difference>,
    /// Where the first one differs that isn't.
    pub not_shown: Option<Difference>,
}

/// Decides all obligations in order, each query with at most so many conflicts, of which there are at most 200,000. The graph is swept once
/// for all queries of more than 16 variables, and where it leaves bits of a word open, both words are rewritten as sums; a query of up to 16
/// variables is decided by its table, and its difference is the least.
pub fn decide_all(
    alloc: Global,
    aig: &Aig,
    asked: &[Obligation],
    conflicts: u32,
) -> Result<Decided, NoMemory>
    requires asked { AreAsked aig.now asked.now }
    requires conflicts { conflicts ≤ MAX_CONFLICTS }
    ensures { IfOk result (HaveDecided aig.now conflicts asked.now) }
{
    let models = Vec::new(alloc);
    decide_near(alloc, aig, asked, models.as_slice(), conflicts)
}

/// The same, where assignments near these models are tried first on queries of more than 16 variables.
pub fn decide_near(
    alloc: Global,
    aig: &Aig,
    asked: &[Obligation],
    models: &[Model],
    conflicts: u32,
) -> Result<Decided, NoMemory>
    requires asked { AreAsked aig.now asked.now }
    requires conflicts { conflicts ≤ MAX_CONFLICTS }
    ensures { IfOk result (HaveDecided aig.now conflicts asked.now) }
{
    let known = known_sides(alloc, aig, asked, models, conflicts)?;
    let mut decided = Decided {
        results: PairResults::new(alloc),
        different: None,
        not_shown: None,
    };
    let mut place = 0;
    for i in 0..asked.len() {
        decide_next(alloc, aig, asked, &known, i, place, conflicts, &mut decided)?;
        place += asked[i].queries.len();
    }
    Ok(decided)
}

/// Decides the obligation `i`, where those before it are decided, whose queries fill the places below `place`.
fn decide_next(
    alloc: Global,
    aig: &Aig,
    asked: &[Obligation],
    known: &KnownSides,
    i: usize,
    place: usize,
    conflicts: u32,
    decided: &mut Decided,
) -> Result<(), NoMemory>
    requires asked { AreAsked aig.now asked.now }
    requires known { AreKnown aig.now known.now.swept (queries_of asked.now) }
    requires agreed { AreAgreed aig.now known.now.bits.items }
    requires few { length (queries_of asked.now) < 2 ^ 64 }
    requires within { i < length asked.now }
    requires place { place ≡ length (queries_of (take i asked.now)) }
    requires conflicts { conflicts ≤ MAX_CONFLICTS }
    ensures { OnOk result (HaveDecided aig.now conflicts (take i asked.now) decided.old → HaveDecided aig.now conflicts (take (i + 1) asked.now) decided.new) }
{
    let obligation = &asked[i];
    let queries = obligation.queries.as_slice();
    let found = find(alloc, aig, queries, known, i, place, conflicts)?;
    let name = copy_name(&obligation.name)?;
    let (result, difference) = answer_of(name, obligation.size, obligation.decisive, i, found);
    decided.results.push(result)?;
    decided.put(difference, obligation.decisive);
    Ok(())
}

/// The result of the obligation of this name, size and place by what was found of its queries, and where it differs, if it does.
fn answer_of(
    name: PairName,
    size: u32,
    decisive: bool,
    pair: usize,
    found: Found,
) -> (PairResult, Option<Difference>)
    ensures { IsAnswerOf name size decisive pair found result.0 result.1 }
{
    match found {
        Found::Same => (
            PairResult {
                name,
                size,
                answer: PairAnswer::Equal,
                proof: None,
            },
            None,
        ),
        Found::Differs(query, bits) => (
            PairResult {
                name,
                size,
                answer: differing(decisive),
                proof: None,
            },
            Some(Difference { pair, query, bits }),
        ),
        Found::Limit(proof) => (
            PairResult {
                name,
                size,
                answer: PairAnswer::Limit,
                proof: Some(proof),
            },
            None,
        ),
    }
}

/// How an obligation is answered whose sides differ.
fn differing(decisive: bool) -> PairAnswer
    ensures { result ≡ differing decisive }
{
    if decisive {
        PairAnswer::Different
    } else {
        PairAnswer::NotShown
    }
}

impl Decided {
    /// Puts a difference where the first of its kind is kept, if there is none yet.
    fn put(&mut self, difference: Option<Difference>, decisive: bool)
        ensures results { self.new.results ≡ self.old.results }
        ensures put { IsPut decisive difference self.old self.new }
    {
        if decisive {
            keep_first(&mut self.different, difference);
        } else {
            keep_first(&mut self.not_shown, difference);
        }
    }
}

/// Keeps the first, or takes the new one where there is none.
fn keep_first(first: &mut Option<Difference>, new: Option<Difference>)
    ensures { first.new ≡ Rattle.obligations.specs.Decided.first_of first.old new }
{
    if first.is_none() {
        *first = new;
    }
}
