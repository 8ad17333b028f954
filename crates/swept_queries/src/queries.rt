//! Sweeping the queries, and deciding them.

ghost use Rattle.std.specs.Prelude.{◌≡◌, ◌*◌, ◌<◌, ◌≤◌, List, length, All, IfOk};
ghost use Rattle.swept_queries.specs.sweep.aig.Node.{Node};
ghost use Rattle.swept_queries.specs.sweep.aig.Graph.{vars_of};
ghost use Rattle.swept_queries.specs.sweep.pair_decide.Query.{Query};
ghost use Rattle.swept_queries.specs.sweep.pair_decide.Queries.{IsQuery};
ghost use Rattle.swept_queries.specs.sweep.Swept.{IsSwept};
ghost use Rattle.swept_queries.specs.Lanes.{DiffersAt};
ghost use Rattle.swept_queries.specs.InStead.{MayBeWithin, AreKnownWithin, IsMovedTo, AreSwept, IsKnown, IsTrueOf, StandFor, DecidesInStead, sides_of};

use crate::choice::{chosen, is_any_open};
use crate::constants::tried_words;
use crate::node_agreement::Model;
use crate::query::query_in_stead;
use crate::roots::{known_after, roots_of};
use crate::sides::{Known, Sides};
use crate::sweep::{
    Aig, Decision, Effort, Lits, MAX_CONFLICTS, NoMemory, Query, SameBy, Swept, decide,
    sweep_across,
};
use crate::targets::{is_any_left, lits_of};
use crate::words::bits_at;
use aig::MAX_TABLE_VARIABLES;
use std::alloc::Global;

/// A swept graph, and what is known of the queries at their places. The words have the variables' bits under the assignments that
/// tell queries apart.
pub struct SweptQueries {
    pub aig: Aig,
    pub known: Vec<Known>,
    pub words: Vec<u64>,
}

/// It is let go by one call: an owner isn't taken apart field by field at each way out.
impl Drop for SweptQueries {
    fn drop(self) {
        let SweptQueries {
            aig: _,
            known: _,
            words: _,
        } = self;
    }
}

/// Tries 512 assignments on the given queries, of which 64 are near each of these models, or near one that gives a node its rare value, or
/// drawn anew where some query is told apart, and sweeps the graph, with at most so many conflicts, for those that aren't told apart and
/// whose sides are different literals. Where there is none, nothing is swept.
pub fn sweep_queries(
    alloc: Global,
    aig: &Aig,
    given: &[Option<Sides>],
    models: &[Model],
    conflicts: u32,
) -> Result<SweptQueries, NoMemory>
    requires { All (MayBeWithin aig.now) given.now }
    ensures { IfOk result (AreSwept aig.now given.now) }
{
    if !is_any_open(given) {
        return Ok(SweptQueries {
            aig: Aig::new(alloc)?,
            known: Vec::new(alloc),
            words: Vec::new(alloc),
        });
    }
    let words = tried_words(alloc, aig, given, models, conflicts)?;
    let asked = chosen(alloc, aig, given, words.as_slice())?;
    let swept = sweep_twice(alloc, aig, asked.as_slice(), conflicts, words.as_slice())?;
    Ok(SweptQueries {
        aig: swept.aig,
        known: swept.known,
        words,
    })
}

/// A swept graph, and what is known over it.
#[derive(Drop)]
struct SweptKnown {
    aig: Aig,
    known: Vec<Known>,
}

/// Sweeps the graph for the queries that are to be swept: by small cuts alone, and then by searches too for those whose sides are
/// still different literals. Where so few conflicts are allowed that there are no cuts, both times alike.
fn sweep_twice(
    alloc: Global,
    aig: &Aig,
    known: &[Known],
    conflicts: u32,
    words: &[u64],
) -> Result<SweptKnown, NoMemory>
    requires within { All (AreKnownWithin aig.now) known.now }
    requires words { length words.now ≡ 8 * vars_of aig.now }
    ensures { IfOk result (IsMovedTo aig.now known.now) }
{
    let cuts = Effort {
        conflicts,
        searches: conflicts < 20,
    };
    let first = sweep_known(alloc, aig, known, cuts, words)?;
    if !is_any_left(first.known.as_slice()) {
        return Ok(first);
    }
    sweep_again(alloc, &first, conflicts, words)
}

/// Sweeps what was swept once more, by searches.
fn sweep_again(
    alloc: Global,
    first: &SweptKnown,
    conflicts: u32,
    words: &[u64],
) -> Result<SweptKnown, NoMemory>
    requires within { All (AreKnownWithin first.now.aig) first.now.known.items }
    requires words { length words.now ≡ 8 * vars_of first.now.aig }
    ensures { IfOk result (IsMovedTo first.now.aig first.now.known.items) }
{
    let searches = Effort {
        conflicts,
        searches: true,
    };
    sweep_known(alloc, &first.aig, first.known.as_slice(), searches, words)
}

/// Sweeps the graph for the queries that are to be swept. Nodes of the left sides are kept, and those of the others merged with them.
fn sweep_known(
    alloc: Global,
    aig: &Aig,
    known: &[Known],
    effort: Effort,
    words: &[u64],
) -> Result<SweptKnown, NoMemory>
    requires within { All (AreKnownWithin aig.now) known.now }
    requires words { length words.now ≡ 8 * vars_of aig.now }
    ensures { IfOk result (IsMovedTo aig.now known.now) }
{
    aig.keeps();
    let roots = roots_of(alloc, known)?;
    let swept = sweep_open(alloc, aig, known, &roots, effort, words)?;
    let known = known_after(alloc, known, swept.lits.as_slice())?;
    Ok(SweptKnown {
        aig: swept.aig,
        known,
    })
}

/// The literals of these roots in a swept graph. What the open queries read is tried.
fn sweep_open(
    alloc: Global,
    aig: &Aig,
    known: &[Known],
    roots: &Lits,
    effort: Effort,
    words: &[u64],
) -> Result<Swept, NoMemory>
    requires within { All (AreKnownWithin aig.now) known.now }
    requires roots { All (λ l. l.0 < 2 * length aig.now) roots.now }
    requires words { length words.now ≡ 8 * vars_of aig.now }
    ensures { IfOk result (IsSwept aig.now roots.now) }
{
    let tried = lits_of(alloc, known, true)?;
    let kept = lits_of(alloc, known, false)?;
    sweep_across(
        alloc,
        aig,
        roots,
        tried.as_slice(),
        kept.as_slice(),
        effort,
        words,
    )
}

impl SweptQueries {
    /// Decides the query of this place: by the assignment that tells it apart, at once where its sides are one literal of the swept
    /// graph, over that graph where its literals there read no variable but the query's own, and else as it stands.
    pub fn decide(
        &self,
        alloc: Global,
        aig: &Aig,
        query: &Query,
        place: usize,
        conflicts: u32,
    ) -> Result<Decision, NoMemory>
        requires query { IsQuery aig.now query.now }
        requires known { IsKnown aig.now self.now place query.now }
        requires conflicts { conflicts ≤ MAX_CONFLICTS }
        ensures { IfOk result (DecidesInStead aig.now query.now conflicts) }
    {
        match self.known_at(place) {
            Known::Swept(sides) => self.decide_swept(alloc, aig, &sides, query, conflicts),
            Known::Apart(lane) => self.decide_apart(alloc, aig, lane, query, conflicts),
            Known::Nothing => decide_itself(alloc, aig, query, conflicts),
        }
    }

    /// What is known of the query of this place.
    fn known_at(&self, place: usize) -> Known
        ensures { (g : List Node) (q : Query) → IsKnown g self.now place q → IsTrueOf g (sides_of q) self.now.aig self.now.words.items result }
    {
        if place < self.known.len() {
            self.known[place]
        } else {
            Known::Nothing
        }
    }

    /// Decides the query, which has these literals in the swept graph. Where both sides are one there, nothing is walked.
    fn decide_swept(
        &self,
        alloc: Global,
        aig: &Aig,
        sides: &Sides,
        query: &Query,
        conflicts: u32,
    ) -> Result<Decision, NoMemory>
        requires query { IsQuery aig.now query.now }
        requires stand { StandFor aig.now (sides_of query.now) self.now.aig sides.now }
        requires conflicts { conflicts ≤ MAX_CONFLICTS }
        ensures { IfOk result (DecidesInStead aig.now query.now conflicts) }
    {
        if sides.left == sides.right {
            aig.keeps();
            return Ok(Decision::Same(SameBy::Literal));
        }
        match query_in_stead(alloc, &self.aig, sides, query)? {
            Some(asked) => decide(alloc, &self.aig, &asked, conflicts),
            None => decide_itself(alloc, aig, query, conflicts),
        }
    }

    /// Decides the query, which this assignment tells apart.
    fn decide_apart(
        &self,
        alloc: Global,
        aig: &Aig,
        lane: u32,
        query: &Query,
        conflicts: u32,
    ) -> Result<Decision, NoMemory>
        requires query { IsQuery aig.now query.now }
        requires apart { DiffersAt aig.now self.now.words.items (sides_of query.now) lane }
        requires conflicts { conflicts ≤ MAX_CONFLICTS }
        ensures { IfOk result (DecidesInStead aig.now query.now conflicts) }
    {
        aig.keeps();
        let vars = query.vars.as_slice();
        if vars.len() <= MAX_TABLE_VARIABLES {
            return decide_itself(alloc, aig, query, conflicts);
        }
        let bits = bits_at(alloc, self.words.as_slice(), vars, lane)?;
        Ok(Decision::Differs(bits))
    }
}

/// Decides the query as it stands.
fn decide_itself(
    alloc: Global,
    aig: &Aig,
    query: &Query,
    conflicts: u32,
) -> Result<Decision, NoMemory>
    requires query { IsQuery aig.now query.now }
    requires conflicts { conflicts ≤ MAX_CONFLICTS }
    ensures { IfOk result (DecidesInStead aig.now query.now conflicts) }
{
    aig.keeps();
    decide(alloc, aig, query, conflicts)
}
