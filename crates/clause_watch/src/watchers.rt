//! Which clauses watch each literal.

ghost use Rattle.std.specs.Prelude.{◌≡◌, ◌+◌, ◌*◌, ◌<◌, ◌≤◌, ◌^◌, [], length, slice_get, Some, IfOk, OnOk, OnErr};
ghost use Rattle.clause_watch.specs.Rows.{row, row_of, IsAdded, IsPut, IsRemoved, IsPopped, AreEmpty, AreSameRows};
ghost use Rattle.clause_watch.specs.TwoWatches.{IsInBothRows};

use crate::pair::Pair;
use clause_base::{Literal, NoMemory};
use std::alloc::Global;
use std::marker::Model;

/// A clause that watches a literal, and one of its literals.
#[derive(Clone, Copy)]
pub struct Watcher {
    pub clause: u32,
    pub blocker: Literal,
}

/// The clauses that watch one literal. A contract sees a list.
#[derive(Drop)]
pub(crate) struct Row {
    watchers: Vec<Watcher>,
}

impl Model for Row {
    ghost use Rattle.std.specs.Prelude.{List};
    ghost use Rattle.clause_watch.specs.declared.watchers.Watcher as parts;

    ghost Value = { List parts.Watcher };

    ghost view = { λ r. r.watchers.items };
}

impl Row {
    /// No clauses.
    fn new(alloc: Global) -> Row
        ensures { result ≡ [] }
    {
        Row {
            watchers: Vec::new(alloc),
        }
    }
}

/// For each literal the clauses that watch it. A contract sees a list of lists.
#[derive(Drop)]
pub(crate) struct Watchers {
    rows: Vec<Row>,
}

impl Model for Watchers {
    ghost use Rattle.std.specs.Prelude.{List};
    ghost use Rattle.clause_watch.specs.declared.watchers.Watcher as parts;

    ghost Value = { List (List parts.Watcher) };

    ghost view = { λ w. w.rows.items };
}

impl Watchers {
    /// No clauses, for the literals of so many variables.
    pub(crate) fn new(alloc: Global, variables: u32) -> Result<Watchers, NoMemory>
        requires { variables ≤ 2 ^ 30 }
        ensures { IfOk result (AreEmpty variables) }
    {
        let mut rows = Vec::new(alloc);
        for _at in 0..2 * variables + 2 {
            rows.push(Row::new(alloc))?;
        }
        Ok(Watchers { rows })
    }

    /// How many clauses watch the literal.
    pub(crate) fn count(&self, literal: Literal) -> usize
        requires { row_of literal < length self.now }
        ensures { result ≡ length (row self.now literal) }
    {
        let row = &self.rows[index_of(literal)];
        row.watchers.len()
    }

    /// One of the clauses that watch the literal.
    pub(crate) fn at(&self, literal: Literal, place: usize) -> Watcher
        requires { place < length (row self.now literal) }
        ensures { slice_get (row self.now literal) place ≡ Some result }
    {
        let row = &self.rows[index_of(literal)];
        row.watchers[place]
    }

    /// One clause more that watches the literal. After `NoMemory` nothing has changed.
    pub(crate) fn add(&mut self, literal: Literal, watcher: Watcher) -> Result<(), NoMemory>
        requires { row_of literal < length self.old }
        ensures ok { OnOk result (IsAdded self.old literal watcher self.new) }
        ensures err { OnErr result (AreSameRows self.old self.new) }
    {
        let row = &mut self.rows[index_of(literal)];
        row.watchers.push(watcher)?;
        Ok(())
    }

    /// Takes the last one out of the literal's row.
    fn pop(&mut self, literal: Literal)
        requires { 0 < length (row self.old literal) }
        ensures { IsPopped self.old literal self.new }
    {
        let row = &mut self.rows[index_of(literal)];
        let _ = row.watchers.pop();
    }

    /// Puts a clause into the rows of two literals. After `NoMemory` nothing has changed.
    pub(crate) fn add_both(&mut self, number: u32, pair: &Pair) -> Result<(), NoMemory>
        requires first { row_of pair.now.first < length self.old }
        requires second { row_of pair.now.second < length self.old }
        ensures ok { OnOk result (IsInBothRows self.old number pair.now.first pair.now.second self.new) }
        ensures err { OnErr result (AreSameRows self.old self.new) }
    {
        let left = Watcher {
            clause: number,
            blocker: pair.second,
        };
        let right = Watcher {
            clause: number,
            blocker: pair.first,
        };
        self.add(pair.first, left)?;
        match self.add(pair.second, right) {
            Ok(()) => Ok(()),
            Err(_) => {
                self.pop(pair.first);
                Err(NoMemory)
            }
        }
    }

    /// Takes out of the rows of two literals what was put there last.
    pub(crate) fn pop_both(&mut self, pair: &Pair)
        requires { (old : _) × (number : _) × IsInBothRows old number pair.now.first pair.now.second self.old }
        ensures { (old : _) (number : _) → IsInBothRows old number pair.now.first pair.now.second self.old → AreSameRows old self.new }
    {
        self.pop(pair.second);
        self.pop(pair.first);
    }

    /// Puts one in the place of another.
    pub(crate) fn put(&mut self, literal: Literal, place: usize, watcher: Watcher)
        requires { place < length (row self.old literal) }
        ensures { IsPut self.old literal place watcher self.new }
    {
        let row = &mut self.rows[index_of(literal)];
        row.watchers[place] = watcher;
    }

    /// Takes away one of the clauses that watch the literal.
    pub(crate) fn remove(&mut self, literal: Literal, place: usize)
        requires { place < length (row self.old literal) }
        ensures { IsRemoved self.old literal place self.new }
    {
        let row = &mut self.rows[index_of(literal)];
        let _ = row.watchers.swap_remove(place);
    }
}

/// The number of the literal's row.
fn index_of(literal: Literal) -> usize
    ensures { result ≡ row_of literal }
{
    let twice = 2 * literal.variable() as usize;
    if literal.is_positive() {
        twice + 1
    } else {
        twice
    }
}
