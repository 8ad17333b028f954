//! The clauses of a search with the literals that they watch.

ghost use Rattle.std.specs.Prelude.{◌≡◌, ◌≢◌, ◌+◌, ◌*◌, ◌<◌, ◌≤◌, ◌^◌, [], ◌∷◌, ◌++◌, length, slice_get, Some, IfOk, OnOk, OnErr};
ghost use Rattle.std.specs.List.{Contains};
ghost use Rattle.clause_base.specs.Clauses.{IsClause};
ghost use Rattle.clause_watch.specs.Range.{InRange};
ghost use Rattle.clause_watch.specs.Rows.{row, row_of, IsPut};
ghost use Rattle.clause_watch.specs.TwoWatches.{IsWatch, AreOwn, IsNamed, KeepsWatches, IsPushed, IsRewatched};

use crate::clause_db::ClauseDb;
use crate::pair::Pair;
use crate::watchers::{Watcher, Watchers};
use clause_base::{Clauses, Literal, NoMemory};
use std::alloc::Global;
use std::marker::Model;

/// The clauses of a search: the given ones, and those that were learnt. Each clause of two or more
/// literals watches two of its own, of two variables. It stands once in the row of each of them,
/// and nothing else stands in the rows. A contract sees the clauses, the pairs and the rows.
pub struct WatchedClauses {
    store: ClauseDb,
    /// What each clause watches. The pair of a clause of fewer literals means nothing.
    pairs: Vec<Pair>,
    /// For each literal the clauses that watch it.
    watchers: Watchers,
}

/// It is let go by one call: an owner isn't taken apart field by field at each way out.
impl Drop for WatchedClauses {
    fn drop(self) {
        let WatchedClauses {
            store: _,
            pairs: _,
            watchers: _,
        } = self;
    }
}

impl Model for WatchedClauses {
    ghost use Rattle.clause_watch.specs.TwoWatches.{WatchedView, KeepsWatches};

    ghost Value = { WatchedView };

    ghost view = { λ w. record { known = w.store; pairs = w.pairs.items; rows = w.watchers } };

    ghost invariant = { λ w. KeepsWatches w.store w.pairs.items w.watchers };
}

impl WatchedClauses {
    /// No clauses, with a row for each literal of so many variables.
    fn empty(alloc: Global, variables: u32) -> Result<WatchedClauses, NoMemory>
        requires { variables ≤ 2 ^ 30 }
        ensures known { IfOk result (λ made. made.known ≡ []) }
        ensures sized { IfOk result (λ made. length made.rows ≡ 2 * variables + 2) }
        ensures kept { IfOk result (λ made. KeepsWatches made.known made.pairs made.rows) }
    {
        Ok(WatchedClauses {
            store: ClauseDb::empty(alloc)?,
            pairs: Vec::new(alloc),
            watchers: Watchers::new(alloc, variables)?,
        })
    }

    /// The given clauses, each of which watches its first two literals.
    pub(crate) fn new(
        alloc: Global,
        clauses: &Clauses,
        variables: u32,
    ) -> Result<WatchedClauses, NoMemory>
        requires variables { variables ≤ 2 ^ 30 }
        requires numbers { length clauses.now < 2 ^ 32 }
        requires range { InRange variables clauses.now }
        ensures known { IfOk result (λ made. made.known ≡ clauses.now) }
        ensures sized { IfOk result (λ made. length made.rows ≡ 2 * variables + 2) }
        ensures kept { IfOk result (λ made. KeepsWatches made.known made.pairs made.rows) }
    {
        let mut made = WatchedClauses::empty(alloc, variables)?;
        for clause in clauses.as_slice() {
            made.push(clause.as_slice(), first_pair(clause.as_slice()))?;
        }
        Ok(made)
    }

    /// The clauses alone.
    pub fn store(&self) -> &ClauseDb
        ensures { result.now ≡ self.now.known }
    {
        &self.store
    }

    /// How many clauses there are.
    pub fn len(&self) -> usize
        ensures { result ≡ length self.now.known }
    {
        self.store.len()
    }

    /// The literals of the numbered clause.
    pub(crate) fn clause(&self, number: u32) -> &[Literal]
        requires { number < length self.now.known }
        ensures there { slice_get self.now.known number ≡ Some result.now }
        ensures clause { IsClause result.now }
    {
        self.store.clause(number)
    }

    /// The literals that the numbered clause watches.
    pub(crate) fn pair(&self, number: u32) -> Pair
        requires { number < length self.now.known }
        ensures { slice_get self.now.pairs number ≡ Some result }
    {
        self.pairs[number as usize]
    }

    /// How many clauses watch the literal.
    pub(crate) fn count(&self, literal: Literal) -> usize
        requires { row_of literal < length self.now.rows }
        ensures { result ≡ length (row self.now.rows literal) }
    {
        self.watchers.count(literal)
    }

    /// One of the clauses that watch the literal.
    pub(crate) fn watcher(&self, literal: Literal, place: usize) -> Watcher
        requires { place < length (row self.now.rows literal) }
        ensures there { slice_get (row self.now.rows literal) place ≡ Some result }
        ensures watches { IsWatch self.now.pairs result.clause literal }
    {
        self.watchers.at(literal, place)
    }

    /// Notes another literal of the clause that stands at a place of the literal's row.
    pub(crate) fn block(&mut self, literal: Literal, place: usize, watcher: Watcher)
        requires there { (e : _) × (slice_get (row self.old.rows literal) place ≡ Some e) × (watcher.clause ≡ e.clause) }
        requires named { IsNamed self.old.known watcher }
        ensures known { self.new.known ≡ self.old.known }
        ensures pairs { self.new.pairs ≡ self.old.pairs }
        ensures put { IsPut self.old.rows literal place watcher self.new.rows }
    {
        self.watchers.put(literal, place, watcher)
    }

    /// Lets the clause that stands at a place of the literal's row watch `next` in place of the literal.
    pub(crate) fn rewatch(
        &mut self,
        literal: Literal,
        place: usize,
        number: u32,
        other: Literal,
        next: Literal,
    ) -> Result<(), NoMemory>
        requires there { (e : _) × (slice_get (row self.old.rows literal) place ≡ Some e) × (e.clause ≡ number) }
        requires watched { IsWatch self.old.pairs number other }
        requires apart { other.variable ≢ literal.variable }
        requires own { (c : _) × (slice_get self.old.known number ≡ Some c) × AreOwn c (record { first = other; second = next }) }
        requires range { row_of next < length self.old.rows }
        requires differ { next ≢ literal }
        ensures known { self.new.known ≡ self.old.known }
        ensures moved { OnOk result (IsRewatched self.old.pairs self.old.rows literal place number other next self.new.pairs self.new.rows) }
    {
        let watcher = Watcher {
            clause: number,
            blocker: other,
        };
        self.watchers.add(next, watcher)?;
        self.pairs[number as usize] = Pair {
            first: other,
            second: next,
        };
        self.watchers.remove(literal, place);
        Ok(())
    }

    /// Puts a clause last, with the literals that it watches. `NoMemory` comes also where there are
    /// 2^32 literals.
    pub(crate) fn push(&mut self, clause: &[Literal], pair: Pair) -> Result<(), NoMemory>
        requires numbers { length self.old.known < 2 ^ 32 }
        requires clause { IsClause clause.now }
        requires own { 2 ≤ length clause.now → AreOwn clause.now pair }
        requires rows { (l : _) → Contains clause.now l → row_of l < length self.old.rows }
        ensures pushed { OnOk result (IsPushed self.old clause.now pair self.new) }
        ensures kept { OnOk result (KeepsWatches self.new.known self.new.pairs self.new.rows) }
    {
        if clause.len() < 2 {
            return push_both(&mut self.store, &mut self.pairs, clause, &pair);
        }
        let number = self.store.len() as u32;
        self.watchers.add_both(number, &pair)?;
        match push_both(&mut self.store, &mut self.pairs, clause, &pair) {
            Ok(()) => Ok(()),
            Err(_) => {
                self.watchers.pop_both(&pair);
                Err(NoMemory)
            }
        }
    }
}

/// Puts a clause and its pair last, or after `NoMemory` neither.
fn push_both(
    store: &mut ClauseDb,
    pairs: &mut Vec<Pair>,
    clause: &[Literal],
    pair: &Pair,
) -> Result<(), NoMemory>
    requires { IsClause clause.now }
    ensures stored { OnOk result (store.new ≡ store.old ++ clause.now ∷ []) }
    ensures paired { OnOk result (pairs.new.items ≡ pairs.old.items ++ pair.now ∷ []) }
    ensures same_store { OnErr result (store.new ≡ store.old) }
    ensures same_pairs { OnErr result (pairs.new.items ≡ pairs.old.items) }
{
    pairs.push(*pair)?;
    match store.push(clause) {
        Ok(()) => Ok(()),
        Err(_) => {
            let _ = pairs.pop();
            Err(NoMemory)
        }
    }
}

/// The first two literals of a clause. Those of a clause of fewer literals mean nothing.
fn first_pair(clause: &[Literal]) -> Pair
    requires { IsClause clause.now }
    ensures { 2 ≤ length clause.now → AreOwn clause.now result }
{
    match clause {
        [first, second, ..] => Pair {
            first: *first,
            second: *second,
        },
        _ => Pair {
            first: Literal::new(1, true),
            second: Literal::new(1, true),
        },
    }
}
