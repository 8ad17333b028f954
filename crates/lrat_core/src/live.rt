//! The live clauses.

ghost use Rattle.std.specs.Prelude.{◌≡◌, IfOk, OnOk, MatchOption, None, Some, is_some};
ghost use Rattle.lrat_core.specs.States.{none_live, live_of, with_clause, without};

use proof_check::Literal;
use sec_base::NoMemory;
use std::alloc::Global;
use std::collections::HashMap;
use std::marker::Model;

/// Where a clause's literals stand in the store.
#[derive(Clone, Copy)]
struct Span {
    start: usize,
    end: usize,
}

/// Clauses by their numbers. The literals of all clauses stand one after another in one store. A contract sees the numbers
/// with their clauses in any order, and speaks of the clause of each number.
pub(crate) struct LiveClauses {
    store: Vec<Literal>,
    spans: HashMap<u64, Span>,
}

/// It is let go by one call: an owner isn't taken apart field by field at each way out.
impl Drop for LiveClauses {
    fn drop(self) {
        let LiveClauses { store: _, spans: _ } = self;
    }
}

impl Model for LiveClauses {
    ghost use Rattle.std.specs.Prelude.{ℕ, List};
    ghost use Rattle.proof_check.specs.Literals as words;
    ghost use Rattle.lrat_core.specs.Stored.{clauses_of, AllWithin};

    ghost Value = { List (ℕ × List words.Literal) };

    ghost view = { λ c. clauses_of c.store.items c.spans.entries };

    ghost invariant = { λ c. AllWithin c.store.items c.spans.entries };
}

impl LiveClauses {
    /// Without clauses, with room for so many.
    pub(crate) fn with_capacity(alloc: Global, clauses: usize) -> Result<LiveClauses, NoMemory>
        ensures { IfOk result (λ made. live_of made ≡ none_live) }
    {
        Ok(LiveClauses {
            store: Vec::new(alloc),
            spans: HashMap::with_capacity(alloc, clauses)?,
        })
    }

    /// The literals of the clause of this number, if it is live.
    pub(crate) fn get(&self, id: u64) -> Option<&[Literal]>
        ensures { MatchOption result (live_of self.now id ≡ None) (λ c. live_of self.now id ≡ Some c.now) }
    {
        match self.spans.get(&id) {
            Some(span) => Some(&self.store[span.start..span.end]),
            None => None,
        }
    }

    /// Makes the clause of these literals live under the number.
    pub(crate) fn insert(&mut self, id: u64, literals: &[Literal]) -> Result<(), NoMemory>
        ensures { OnOk result (live_of self.new ≡ with_clause (live_of self.old) id literals.now) }
    {
        let start = self.store.len();
        self.store.extend_from_slice(literals)?;
        let end = self.store.len();
        self.spans.insert(id, Span { start, end })?;
        Ok(())
    }

    /// Ends the life of the clause of this number, and tells whether it was live.
    pub(crate) fn remove(&mut self, id: u64) -> bool
        ensures clauses { live_of self.new ≡ without (live_of self.old) id }
        ensures live { result ≡ is_some (live_of self.old id) }
    {
        self.spans.remove(&id).is_some()
    }
}
