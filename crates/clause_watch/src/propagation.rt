//! Unit propagation that visits only the clauses that watch a literal that became false.

ghost use Rattle.std.specs.Prelude.{◌≡◌, ◌≢◌, ◌+◌, ◌<◌, ◌≤◌, ◌^◌, length, slice_get, Some, IfOk};
ghost use Rattle.clause_base.specs.Literals.{negation};
ghost use Rattle.clause_watch.specs.Rows.{row, row_of};
ghost use Rattle.clause_watch.specs.Trails.{At};
ghost use Rattle.clause_watch.specs.Watching.{IsWatched, IsVisiting, IsVisited, IsRowVisited, IsPropagated, IsForced};

use crate::entry::Truth;
use crate::pair::{Visit, next_watch, other_of};
use crate::trail::Trail;
use crate::watched_clauses::WatchedClauses;
use crate::watchers::Watcher;
use clause_base::{Literal, NoMemory};

/// The clauses with what they watch, and how many entries of the trail are propagated.
#[derive(Drop)]
pub struct Watches {
    pub clauses: WatchedClauses,
    pub head: u32,
}

impl Watches {
    /// Makes true all that the clauses force, or gives the number of a false clause. Without a false
    /// clause none is left that forces a literal.
    pub fn propagate(&mut self, trail: &mut Trail) -> Result<Option<u32>, NoMemory>
        requires { IsWatched self.old.clauses.known trail.old self.old.clauses.pairs self.old.clauses.rows self.old.head }
        ensures known { self.new.clauses.known ≡ self.old.clauses.known }
        ensures variables { trail.new.variables ≡ trail.old.variables }
        ensures longer { length trail.old.entries ≤ length trail.new.entries }
        ensures found { IfOk result (IsPropagated self.new.clauses.known trail.new self.new.clauses.pairs self.new.clauses.rows self.new.head) }
    {
        'turns: while self.head < trail.len() {
            let literal = trail.entry(self.head).literal.negation();
            if let Some(number) = self.visit(trail, literal)? {
                return Ok(Some(number));
            }
            self.head += 1;
        }
        Ok(None)
    }

    /// Visits the clauses that watch the literal, which became false at the head.
    fn visit(&mut self, trail: &mut Trail, literal: Literal) -> Result<Option<u32>, NoMemory>
        requires range { row_of literal < length self.old.clauses.rows }
        requires watched { IsWatched self.old.clauses.known trail.old self.old.clauses.pairs self.old.clauses.rows self.old.head }
        requires there { At trail.old.entries self.old.head (negation literal) }
        ensures known { self.new.clauses.known ≡ self.old.clauses.known }
        ensures variables { trail.new.variables ≡ trail.old.variables }
        ensures longer { length trail.old.entries ≤ length trail.new.entries }
        ensures head { self.new.head ≡ self.old.head }
        ensures visited { IfOk result (IsRowVisited self.new.clauses.known trail.new self.new.clauses.pairs self.new.clauses.rows self.new.head) }
    {
        let mut place = 0;
        'visits: while place < self.clauses.count(literal) {
            match self.follow(trail, literal, place)? {
                Visit::Stays => place += 1,
                Visit::Gone => {}
                Visit::Conflict(number) => return Ok(Some(number)),
            }
        }
        Ok(None)
    }

    /// Visits one clause that watches the literal.
    fn follow(
        &mut self,
        trail: &mut Trail,
        literal: Literal,
        place: usize,
    ) -> Result<Visit, NoMemory>
        requires within { place < length (row self.old.clauses.rows literal) }
        requires visiting { IsVisiting self.old.clauses.known trail.old self.old.clauses.pairs self.old.clauses.rows self.old.head literal place }
        ensures known { self.new.clauses.known ≡ self.old.clauses.known }
        ensures variables { trail.new.variables ≡ trail.old.variables }
        ensures longer { length trail.old.entries ≤ length trail.new.entries }
        ensures head { self.new.head ≡ self.old.head }
        ensures visited { IfOk result (IsVisited self.new.clauses.known trail.new self.new.clauses.pairs self.new.clauses.rows self.new.head literal place (length (row self.old.clauses.rows literal))) }
    {
        let watcher = self.clauses.watcher(literal, place);
        if let Truth::True = trail.truth(watcher.blocker) {
            return Ok(Visit::Stays);
        }
        let Some(other) = other_of(self.clauses.pair(watcher.clause), literal) else {
            unreachable!()
        };
        if let Truth::True = trail.truth(other) {
            let blocked = Watcher {
                clause: watcher.clause,
                blocker: other,
            };
            self.clauses.block(literal, place, blocked);
            return Ok(Visit::Stays);
        }
        match next_watch(self.clauses.clause(watcher.clause), trail, other) {
            None => force(trail, other, watcher.clause),
            Some(next) => {
                self.clauses
                    .rewatch(literal, place, watcher.clause, other, next)?;
                Ok(Visit::Gone)
            }
        }
    }
}

/// Makes the last literal of a clause true that isn't false, or tells that the clause is false.
pub(crate) fn force(trail: &mut Trail, literal: Literal, number: u32) -> Result<Visit, NoMemory>
    requires above { 0 < literal.variable }
    requires within { literal.variable ≤ trail.old.variables }
    ensures variables { trail.new.variables ≡ trail.old.variables }
    ensures longer { length trail.old.entries ≤ length trail.new.entries }
    ensures forced { IfOk result (IsForced trail.old trail.new literal number) }
{
    match trail.truth(literal) {
        Truth::True => Ok(Visit::Stays),
        Truth::False => Ok(Visit::Conflict(number)),
        Truth::Free => {
            trail.push(literal, Some(number))?;
            Ok(Visit::Stays)
        }
    }
}
