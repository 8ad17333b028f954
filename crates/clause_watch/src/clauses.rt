//! Clauses that come to a search: the given ones, and those that are learnt.

ghost use Rattle.std.specs.Prelude.{◌≡◌, ◌-◌, ◌+◌, ◌<◌, ◌≤◌, ◌^◌, [], ◌∷◌, ◌++◌, length, take, IfOk, OnOk};
ghost use Rattle.clause_watch.specs.Range.{AllInRange, InRange};
ghost use Rattle.clause_watch.specs.Watching.{IsWatched};
ghost use Rattle.clause_watch.specs.Learning.{IsDecision, IsAsserting, IsLearntPair, IsLoading, IsEntered, IsLoaded};

use crate::pair::{Pair, Visit};
use crate::places::Placed;
use crate::propagation::{Watches, force};
use crate::trail::Trail;
use crate::watched_clauses::WatchedClauses;
use clause_base::{Clause, Clauses, Literal, NoMemory};
use std::alloc::Global;

impl Watches {
    /// The given clauses over so many variables, where nothing is propagated.
    pub fn new(alloc: Global, clauses: &Clauses, variables: u32) -> Result<Watches, NoMemory>
        requires variables { variables ≤ 2 ^ 30 }
        requires numbers { length clauses.now < 2 ^ 32 }
        requires range { InRange variables clauses.now }
        ensures known { IfOk result (λ made. made.clauses.known ≡ clauses.now) }
        ensures head { IfOk result (λ made. made.head ≡ 0) }
        ensures loading { IfOk result (λ made. IsLoading made.clauses.known (record { variables = variables; entries = [] }) made.clauses.pairs made.clauses.rows 0) }
    {
        Ok(Watches {
            clauses: WatchedClauses::new(alloc, clauses, variables)?,
            head: 0,
        })
    }

    /// Makes the literals of those clauses true that have one literal. Gives the number of a false
    /// clause, if there is one.
    pub fn load(&self, trail: &mut Trail) -> Result<Option<u32>, NoMemory>
        requires numbers { length self.now.clauses.known < 2 ^ 32 }
        requires loading { IsLoading self.now.clauses.known trail.old self.now.clauses.pairs self.now.clauses.rows 0 }
        ensures variables { trail.new.variables ≡ trail.old.variables }
        ensures loaded { IfOk result (IsLoaded self.now.clauses.known trail.new self.now.clauses.pairs self.now.clauses.rows) }
    {
        for number in 0..self.clauses.len() as u32 {
            match self.enter(trail, number)? {
                Visit::Stays => {}
                Visit::Gone => {}
                Visit::Conflict(at) => return Ok(Some(at)),
            }
        }
        Ok(None)
    }

    /// Makes the literal of a clause true that has one literal.
    fn enter(&self, trail: &mut Trail, number: u32) -> Result<Visit, NoMemory>
        requires number { number < length self.now.clauses.known }
        requires loading { IsLoading self.now.clauses.known trail.old self.now.clauses.pairs self.now.clauses.rows number }
        ensures variables { trail.new.variables ≡ trail.old.variables }
        ensures entered { IfOk result (IsEntered self.now.clauses.known trail.new self.now.clauses.pairs self.now.clauses.rows number) }
    {
        match self.clauses.clause(number) {
            [] => Ok(Visit::Conflict(number)),
            [single] => force(trail, *single, number),
            [_, _, ..] => Ok(Visit::Stays),
        }
    }

    /// Cuts the trail, adds a learnt clause, and makes the literal true that it forces.
    pub fn learn(
        &mut self,
        trail: &mut Trail,
        clause: Clause,
        literal: Literal,
        second: Option<Placed>,
        keep: u32,
    ) -> Result<(), NoMemory>
        requires numbers { length self.old.clauses.known < 2 ^ 32 - 1 }
        requires range { AllInRange trail.old.variables clause }
        requires asserting { IsAsserting self.old.clauses.known trail.old.entries clause literal second keep }
        requires watched { IsWatched self.old.clauses.known trail.old self.old.clauses.pairs self.old.clauses.rows self.old.head }
        ensures known { OnOk result (self.new.clauses.known ≡ self.old.clauses.known ++ clause ∷ []) }
        ensures variables { trail.new.variables ≡ trail.old.variables }
        ensures watched { OnOk result (IsWatched self.new.clauses.known trail.new self.new.clauses.pairs self.new.clauses.rows self.new.head) }
    {
        let number = self.clauses.len() as u32;
        trail.cut(keep);
        self.head = keep;
        self.clauses
            .push(clause.as_slice(), learnt_pair(literal, second))?;
        trail.push(literal, Some(number))
    }

    /// Takes back a decision, with all that came after it.
    pub fn cut(&mut self, trail: &mut Trail, decision: u32)
        requires decision { IsDecision trail.old.entries decision }
        requires watched { IsWatched self.old.clauses.known trail.old self.old.clauses.pairs self.old.clauses.rows self.old.head }
        ensures known { self.new.clauses.known ≡ self.old.clauses.known }
        ensures variables { trail.new.variables ≡ trail.old.variables }
        ensures entries { trail.new.entries ≡ take decision trail.old.entries }
        ensures watched { IsWatched self.new.clauses.known trail.new self.new.clauses.pairs self.new.clauses.rows self.new.head }
    {
        trail.cut(decision);
        self.head = decision;
    }
}

/// What a learnt clause watches: the literal that it forces, and the other one if there is one.
fn learnt_pair(literal: Literal, second: Option<Placed>) -> Pair
    ensures { IsLearntPair literal second result }
{
    match second {
        Some(placed) => Pair {
            first: literal,
            second: placed.literal,
        },
        None => Pair {
            first: literal,
            second: literal,
        },
    }
}
