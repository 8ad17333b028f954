//! The checker.

ghost use Rattle.std.specs.Prelude.{◌≡◌, None, MatchResult, IfOk};
ghost use Rattle.lrat_core.specs.Hints.{HintsGive};
ghost use Rattle.lrat_core.specs.Answers.{HintsFail, IsDeleted, IsNotDeleted, IsTaken, IsNotTaken};
ghost use Rattle.lrat_core.specs.Lines.{adds, Deletes};
ghost use Rattle.lrat_core.specs.States.{start, live_of, state_of};

use crate::falsified::Falsified;
use crate::hints::Hint;
use crate::line_error::LineError;
use crate::live::LiveClauses;
use crate::looking::{Effect, look_at_hint};
use proof_check::{Literal, Literals};
use sec_base::{NoMemory, Seq};
use std::alloc::Global;
use std::marker::Model;
use text_numbers::TextKind;

/// A proof as far as it has been read: the live clauses, and the greatest number of a clause so far.
pub struct Checker {
    live: LiveClauses,
    greatest: u64,
    falsified: Falsified,
}

/// It is let go by one call: an owner isn't taken apart field by field at each way out.
impl Drop for Checker {
    fn drop(self) {
        let Checker {
            live: _,
            greatest: _,
            falsified: _,
        } = self;
    }
}

impl Model for Checker {
    ghost use Rattle.lrat_core.specs.States.{Known};

    ghost Value = { Known };

    ghost view = { λ c. record { clauses = c.live; greatest = c.greatest } };
}

impl Checker {
    /// Before the first line: the formula's clauses are live under their numbers, from 1 on.
    pub fn new(alloc: Global, clauses: &Seq<Literals>) -> Result<Checker, NoMemory>
        ensures { IfOk result (λ made. state_of made ≡ start clauses.now) }
    {
        let mut live = LiveClauses::with_capacity(alloc, clauses.len())?;
        for (at, clause) in clauses.as_slice().iter().enumerate() {
            live.insert(at as u64 + 1, clause.as_slice())?;
        }
        Ok(Checker {
            live,
            greatest: clauses.len() as u64,
            falsified: Falsified::new(alloc),
        })
    }

    /// Adds a clause that its hints show, under a number above all before it. Of a faulty line nothing is taken. After `NoMemory`
    /// nothing is said of the checker.
    pub fn add(&mut self, id: u64, literals: &[Literal], hints: &[Hint]) -> Result<(), LineError>
        ensures { MatchResult result (λ done. IsTaken (state_of self.old) (adds id literals.now hints.now) (state_of self.new)) (IsNotTaken (state_of self.old) (adds id literals.now hints.now)) }
    {
        if id <= self.greatest {
            return Err(LineError::Fault(TextKind::BadId));
        }
        self.falsified.set(literals)?;
        follow(&self.live, &mut self.falsified, hints)?;
        self.live.insert(id, literals)?;
        self.greatest = id;
        Ok(())
    }

    /// Ends the life of the clauses of these numbers, one after another, up to the first that isn't live.
    pub fn delete(&mut self, ids: &[u64]) -> Result<(), LineError>
        ensures { MatchResult result (λ done. IsTaken (state_of self.old) (Deletes ids.now) (state_of self.new)) (IsNotTaken (state_of self.old) (Deletes ids.now)) }
    {
        delete(&mut self.live, ids)
    }
}

/// Follows the hints: each makes one more literal false, up to the first whose clause is false.
fn follow(live: &LiveClauses, falsified: &mut Falsified, hints: &[Hint]) -> Result<(), LineError>
    ensures { MatchResult result (λ done. HintsGive (live_of live.now) falsified.old hints.now None) (HintsFail (live_of live.now) falsified.old hints.now) }
{
    for hint in hints {
        match look_at_hint(live, falsified, *hint) {
            Effect::Fails(kind) => return Err(LineError::Fault(kind)),
            Effect::Conflicts => return Ok(()),
            Effect::Forces(literal) => falsified.push(literal.negation())?,
        }
    }
    Err(LineError::Fault(TextKind::NoConflict))
}

/// Ends the life of the clauses of these numbers.
fn delete(live: &mut LiveClauses, ids: &[u64]) -> Result<(), LineError>
    ensures { MatchResult result (λ done. IsDeleted (live_of live.old) ids.now (live_of live.new)) (IsNotDeleted (live_of live.old) ids.now) }
{
    for id in ids {
        if !live.remove(*id) {
            return Err(LineError::Fault(TextKind::BadId));
        }
    }
    Ok(())
}
