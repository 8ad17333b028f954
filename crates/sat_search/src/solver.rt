//! The search.

ghost use Rattle.std.specs.Prelude.{◌-◌, ◌<◌, ◌≤◌, ◌^◌, [], length, IfOk};
ghost use Rattle.proof_check.specs.Chains.{ChainDerives};
ghost use Rattle.clause_watch.specs.Range.{InRange};
ghost use Rattle.sat_search.specs.Found.{IsFound};
ghost use Rattle.clause_watch.specs.Trails.{IsTrail};
ghost use Rattle.clause_watch.specs.Answers.{IsConflict};
ghost use Rattle.clause_watch.specs.Learning.{AreForced};
ghost use Rattle.sat_search.specs.Turning.{IsNewState, IsRunning};

use crate::analysis::analyse;
use crate::lesson::Lesson;
use crate::outcome::Found;
use crate::search_state::{SearchState, Turn};
use clause_watch::{ClauseDb, Clauses, MAX_CONFLICTS, NoMemory, Seq, Trail};
use proof_check::{Chain, Resolver};
use std::alloc::Global;

/// Looks for values that meet all clauses, for at most so many conflicts. `Model` has values that
/// meet each clause; `Refuted` has a log of at most so many chains that derives the empty clause;
/// `Limit` comes at the conflict after the last one allowed, with a log of exactly so many chains,
/// each of which derives a clause that unit propagation doesn't give, and never the empty one.
/// `NoMemory` comes also where clauses have no more numbers, which are of 32 bits.
pub fn search(
    alloc: Global,
    clauses: &Clauses,
    variables: u32,
    conflicts: u32,
) -> Result<Found, NoMemory>
    requires variables { variables ≤ 2 ^ 30 }
    requires numbers { length clauses.now < 2 ^ 32 - MAX_CONFLICTS }
    requires range { InRange variables clauses.now }
    ensures { IfOk result (IsFound clauses.now variables conflicts) }
{
    let mut state = SearchState::new(alloc, clauses, variables)?;
    state.run(alloc, conflicts)
}

impl SearchState {
    /// Turn after turn, until something is found.
    fn run(&mut self, alloc: Global, conflicts: u32) -> Result<Found, NoMemory>
        requires { IsNewState self.old }
        ensures { IfOk result (IsFound self.old.watches.clauses.known self.old.trail.variables conflicts) }
    {
        let wrong = self.watches.load(&mut self.trail)?;
        if let Some(number) = wrong {
            let store = self.watches.clauses.store();
            return refute(alloc, store, &self.trail, number, conflicts);
        }
        self.go_on(alloc, conflicts)
    }

    /// Turn after turn, where the clauses of one literal are met.
    fn go_on(&mut self, alloc: Global, conflicts: u32) -> Result<Found, NoMemory>
        requires { IsRunning self.old.watches.clauses.known self.old.trail.variables conflicts self.old }
        ensures { IfOk result (IsFound self.old.watches.clauses.known self.old.trail.variables conflicts) }
    {
        'turns: loop {
            match self.turn(alloc, conflicts)? {
                Turn::Goes => {}
                Turn::Model(bits) => return Ok(Found::Model(bits)),
                Turn::Refuted => return Ok(Found::Refuted(self.take_log(alloc))),
                Turn::Limit => return Ok(Found::Limit(self.take_log(alloc))),
            }
        }
    }
}

/// What is found where a clause is false before the first decision.
fn refute(
    alloc: Global,
    store: &ClauseDb,
    trail: &Trail,
    number: u32,
    conflicts: u32,
) -> Result<Found, NoMemory>
    requires numbers { length store.now < 2 ^ 32 }
    requires range { InRange trail.now.variables store.now }
    requires trail { IsTrail store.now trail.now.entries }
    requires conflict { IsConflict store.now trail.now.entries number }
    requires forced { AreForced trail.now.entries }
    ensures { IfOk result (IsFound store.now trail.now.variables conflicts) }
{
    if conflicts == 0 {
        return Ok(Found::Limit(Seq::new(alloc)));
    }
    let chain = refutation(alloc, store, trail, number)?;
    let mut log = Seq::new(alloc);
    log.push(chain)?;
    Ok(Found::Refuted(log))
}

/// The chain to the empty clause, where a clause is false before the first decision.
fn refutation(
    alloc: Global,
    store: &ClauseDb,
    trail: &Trail,
    number: u32,
) -> Result<Chain, NoMemory>
    requires numbers { length store.now < 2 ^ 32 }
    requires range { InRange trail.now.variables store.now }
    requires trail { IsTrail store.now trail.now.entries }
    requires conflict { IsConflict store.now trail.now.entries number }
    requires forced { AreForced trail.now.entries }
    ensures { IfOk result (λ chain. ChainDerives store.now chain []) }
{
    let mut resolver = Resolver::new(alloc);
    match analyse(alloc, store, trail, &mut resolver, number)? {
        Lesson::Refutation(chain) => Ok(chain),
        Lesson::Asserting(_) => unreachable!(),
    }
}
