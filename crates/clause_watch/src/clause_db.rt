//! The clauses of a search by number, one after the other in one list of literals.

ghost use Rattle.std.specs.Prelude.{◌≡◌, ◌+◌, ◌<◌, ◌^◌, [], ◌∷◌, ◌++◌, length, slice_get, Some, IfOk, OnOk, OnErr};
ghost use Rattle.clause_base.specs.Clauses.{IsClause};

use clause_base::{Literal, NoMemory};
use std::alloc::Global;
use std::marker::Model;

/// The clauses of a search: the given ones, and those that were learnt. A contract sees a list.
#[derive(Drop)]
pub struct ClauseDb {
    /// The literals of all clauses.
    literals: Vec<Literal>,
    /// Where each clause begins, and where the last one ends.
    starts: Vec<u32>,
}

impl Model for ClauseDb {
    ghost use Rattle.std.specs.Prelude.{List};
    ghost use Rattle.clause_base.specs.Literals as words;
    ghost use Rattle.clause_watch.specs.Flat.{pieces, IsFlat};

    ghost Value = { List (List words.Literal) };

    ghost view = { λ s. pieces s.literals.items s.starts.items };

    ghost invariant = { λ s. IsFlat s.literals.items s.starts.items };
}

impl ClauseDb {
    /// No clauses.
    pub(crate) fn empty(alloc: Global) -> Result<ClauseDb, NoMemory>
        ensures { IfOk result (λ store. store ≡ []) }
    {
        let starts = vec![in alloc; 0; 1]?;
        Ok(ClauseDb {
            literals: Vec::new(alloc),
            starts,
        })
    }

    /// How many clauses there are.
    pub fn len(&self) -> usize
        ensures { result ≡ length self.now }
    {
        self.starts.len() - 1
    }

    /// The literals of the numbered clause.
    pub fn clause(&self, number: u32) -> &[Literal]
        requires { number < length self.now }
        ensures there { slice_get self.now number ≡ Some result.now }
        ensures clause { IsClause result.now }
    {
        let start = self.starts[number as usize] as usize;
        let end = self.starts[number as usize + 1] as usize;
        &self.literals[start..end]
    }

    /// Puts a clause last. `NoMemory` comes also where there are 2^32 literals.
    pub(crate) fn push(&mut self, clause: &[Literal]) -> Result<(), NoMemory>
        requires { IsClause clause.now }
        ensures ok { OnOk result (self.new ≡ self.old ++ clause.now ∷ []) }
        ensures err { OnErr result (self.new ≡ self.old) }
    {
        let end = self.literals.len() + clause.len();
        if end > u32::MAX as usize {
            return Err(NoMemory);
        }
        self.starts.push(end as u32)?;
        match self.literals.extend_from_slice(clause) {
            Ok(()) => Ok(()),
            Err(_) => {
                let _ = self.starts.pop();
                Err(NoMemory)
            }
        }
    }
}
