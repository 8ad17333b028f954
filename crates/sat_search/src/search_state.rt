//! The turns of a search.

ghost use Rattle.std.specs.Prelude.{◌≡◌, ◌-◌, ◌<◌, ◌≤◌, ◌^◌, length, IfOk, OnOk};
ghost use Rattle.clause_watch.specs.Range.{InRange};
ghost use Rattle.clause_watch.specs.Trails.{Quiet};
ghost use Rattle.sat_search.specs.Answers.{IsDistinct};
ghost use Rattle.clause_watch.specs.Answers.{IsConflict};
ghost use Rattle.clause_watch.specs.Watching.{IsWatched};
ghost use Rattle.sat_search.specs.Lessons.{IsLearnt};
ghost use Rattle.sat_search.specs.Running.{AreBits, IsBit};
ghost use Rattle.sat_search.specs.Turning.{IsNewState, IsRunning, IsTurned};
ghost use Rattle.sat_search.specs.declared.search_state.Turn.TheVariants as turns;

use crate::activity::Activity;
use crate::analysis::{analyse, first_decision};
use crate::lesson::{Learnt, Lesson};
use clause_watch::{Bits, Clauses, MAX_CONFLICTS, NoMemory, Seq, Trail, Watches};
use proof_check::{Log, Resolver};
use std::alloc::Global;
use std::mem;

/// What a search works on.
pub(crate) struct SearchState {
    pub(crate) trail: Trail,
    pub(crate) watches: Watches,
    pub(crate) order: Activity,
    pub(crate) resolver: Resolver,
    /// How each learnt clause is derived.
    pub(crate) log: Log,
}

/// It is let go by one call: an owner isn't taken apart field by field at each way out.
impl Drop for SearchState {
    fn drop(self) {
        let SearchState {
            trail: _,
            watches: _,
            order: _,
            resolver: _,
            log: _,
        } = self;
    }
}

/// What a turn came to.
#[derive(Drop)]
pub(crate) enum Turn {
    /// The search goes on.
    Goes,
    /// These values meet each clause.
    Model(Bits),
    /// The log derives the empty clause.
    Refuted,
    /// All conflicts that were allowed are spent.
    Limit,
}

impl SearchState {
    /// The given clauses, none of which is met yet.
    pub(crate) fn new(
        alloc: Global,
        clauses: &Clauses,
        variables: u32,
    ) -> Result<SearchState, NoMemory>
        requires variables { variables ≤ 2 ^ 30 }
        requires numbers { length clauses.now < 2 ^ 32 - MAX_CONFLICTS }
        requires range { InRange variables clauses.now }
        ensures known { IfOk result (λ state. state.watches.clauses.known ≡ clauses.now) }
        ensures variables { IfOk result (λ state. state.trail.variables ≡ variables) }
        ensures new { IfOk result IsNewState }
    {
        let order = Activity::new(alloc, variables)?;
        let trail = Trail::new(alloc, variables)?;
        let watches = Watches::new(alloc, clauses, variables)?;
        Ok(SearchState {
            trail,
            watches,
            order,
            resolver: Resolver::new(alloc),
            log: Seq::new(alloc),
        })
    }

    /// Propagates, and then learns from a conflict or decides.
    pub(crate) fn turn(&mut self, alloc: Global, conflicts: u32) -> Result<Turn, NoMemory>
        requires { (clauses : _) × (variables : _) × IsRunning clauses variables conflicts self.old }
        ensures { IfOk result (λ turn. (clauses : _) (variables : _) → IsRunning clauses variables conflicts self.old → IsTurned clauses variables conflicts self.old self.new turn) }
    {
        let found = self.watches.propagate(&mut self.trail)?;
        match found {
            None => self.decide(alloc),
            Some(conflict) => {
                if self.log.len() == conflicts as usize {
                    return Ok(Turn::Limit);
                }
                self.learn(alloc, conflict)
            }
        }
    }

    /// Decides a free variable, where nothing is forced any more.
    fn decide(&mut self, alloc: Global) -> Result<Turn, NoMemory>
        requires watched { IsWatched self.old.watches.clauses.known self.old.trail self.old.watches.clauses.pairs self.old.watches.clauses.rows self.old.watches.head }
        requires whole { self.old.watches.head ≡ length self.old.trail.entries }
        requires quiet { Quiet self.old.watches.clauses.known self.old.trail.entries (length self.old.trail.entries) }
        ensures { IfOk result (λ turn. (clauses : _) (variables : _) (conflicts : _) → IsRunning clauses variables conflicts self.old → IsTurned clauses variables conflicts self.old self.new turn) }
    {
        let Some(literal) = self.order.choose(&self.trail) else {
            return Ok(Turn::Model(model(alloc, &self.trail)?));
        };
        self.trail.push(literal, None)?;
        Ok(Turn::Goes)
    }

    /// Learns from the false clause of a number.
    fn learn(&mut self, alloc: Global, conflict: u32) -> Result<Turn, NoMemory>
        requires running { (clauses : _) × (variables : _) × (conflicts : _) × IsRunning clauses variables conflicts self.old }
        requires conflict { IsConflict self.old.watches.clauses.known self.old.trail.entries conflict }
        ensures { IfOk result (λ turn. (clauses : _) (variables : _) (conflicts : _) → IsRunning clauses variables conflicts self.old → length self.old.log < conflicts → IsTurned clauses variables conflicts self.old self.new turn) }
    {
        match analyse(
            alloc,
            self.watches.clauses.store(),
            &self.trail,
            &mut self.resolver,
            conflict,
        )? {
            Lesson::Refutation(chain) => {
                self.log.push(chain)?;
                Ok(Turn::Refuted)
            }
            Lesson::Asserting(learnt) => {
                self.add_learnt(learnt)?;
                Ok(Turn::Goes)
            }
        }
    }

    /// Adds a learnt clause, cuts the trail, and makes the literal true that the clause forces.
    fn add_learnt(&mut self, learnt: Learnt) -> Result<(), NoMemory>
        requires watched { IsWatched self.old.watches.clauses.known self.old.trail self.old.watches.clauses.pairs self.old.watches.clauses.rows self.old.watches.head }
        requires learnt { IsLearnt self.old.watches.clauses.known self.old.trail learnt }
        ensures { OnOk result ((clauses : _) (variables : _) (conflicts : _) → IsRunning clauses variables conflicts self.old → length self.old.log < conflicts → IsTurned clauses variables conflicts self.old self.new turns.Goes) }
    {
        if self.watches.clauses.len() >= u32::MAX as usize {
            return Err(NoMemory);
        }
        self.order.learn(&self.trail, &learnt);
        let Learnt {
            clause,
            chain,
            literal,
            second,
            keep,
        } = learnt;
        self.log.push(chain)?;
        self.watches
            .learn(&mut self.trail, clause, literal, second, keep)?;
        self.restart();
        Ok(())
    }

    /// Takes back all decisions, where it is time to begin again.
    fn restart(&mut self)
        requires watched { IsWatched self.old.watches.clauses.known self.old.trail self.old.watches.clauses.pairs self.old.watches.clauses.rows self.old.watches.head }
        ensures known { self.new.watches.clauses.known ≡ self.old.watches.clauses.known }
        ensures variables { self.new.trail.variables ≡ self.old.trail.variables }
        ensures log { self.new.log ≡ self.old.log }
        ensures watched { IsWatched self.new.watches.clauses.known self.new.trail self.new.watches.clauses.pairs self.new.watches.clauses.rows self.new.watches.head }
    {
        if !self.order.is_due() {
            return;
        }
        let end = self.trail.len();
        let first = first_decision(&self.trail, 0, end);
        if first == end {
            return;
        }
        self.order.release(&self.trail, first);
        self.watches.cut(&mut self.trail, first);
    }

    /// The log, which is empty from now on.
    pub(crate) fn take_log(&mut self, alloc: Global) -> Log
        ensures { result ≡ self.old.log }
    {
        mem::replace(&mut self.log, Seq::new(alloc))
    }
}

/// The value of each variable.
fn model(alloc: Global, trail: &Trail) -> Result<Bits, NoMemory>
    requires { IsDistinct trail.now.entries }
    ensures { IfOk result (AreBits trail.now) }
{
    let mut bits = Seq::new(alloc);
    for index in 0..trail.variables() {
        bits.push(is_true(trail, index + 1))?;
    }
    Ok(bits)
}

/// Whether the variable is true.
fn is_true(trail: &Trail, variable: u32) -> bool
    requires above { 0 < variable }
    requires within { variable ≤ trail.now.variables }
    requires trail { IsDistinct trail.now.entries }
    ensures { IsBit trail.now.entries variable result }
{
    match trail.place(variable) {
        Some(place) => trail.entry(place).literal.is_positive(),
        None => false,
    }
}
