//! The trail: the literals that were made true, in order, with their reasons.

ghost use Rattle.std.specs.Prelude.{◌≡◌, ◌+◌, ◌-◌, ◌<◌, ◌≤◌, ◌^◌, ℕ, [], ◌∷◌, ◌++◌, length, take, slice_get, Some, IfOk, OnOk, OnErr};
ghost use Rattle.clause_watch.specs.Trails.{FreeBefore};
ghost use Rattle.clause_watch.specs.Answers.{IsTruth, IsPlace};

use crate::entry::{Entry, Mark, Truth};
use clause_base::{Literal, NoMemory};
use std::alloc::Global;
use std::marker::Model;

/// The literals that were made true, the oldest first.
#[derive(Drop)]
pub struct Trail {
    entries: Vec<Entry>,
    marks: Vec<Option<Mark>>,
}

impl Model for Trail {
    ghost use Rattle.std.specs.Prelude.{length};
    ghost use Rattle.clause_watch.specs.Trails.{TrailView};
    ghost use Rattle.clause_watch.specs.Index.{IsIndex};

    ghost Value = { TrailView };

    ghost view = { λ t. record { variables = length t.marks.items; entries = t.entries.items } };

    ghost invariant = { λ t. IsIndex t.entries.items t.marks.items };
}

impl Trail {
    /// The empty trail over so many variables.
    pub fn new(alloc: Global, variables: u32) -> Result<Trail, NoMemory>
        requires { variables ≤ 2 ^ 30 }
        ensures { IfOk result (λ trail. trail ≡ record { variables = variables; entries = [] }) }
    {
        let mut marks = Vec::new(alloc);
        for _at in 0..variables {
            marks.push(None)?;
        }
        Ok(Trail {
            entries: Vec::new(alloc),
            marks,
        })
    }

    /// How many entries there are: at most one for each variable.
    pub fn len(&self) -> u32
        ensures length { result ≡ length self.now.entries }
        ensures within { result ≤ self.now.variables }
        ensures small { self.now.variables ≤ 2 ^ 30 }
    {
        self.entries.len() as u32
    }

    /// How many variables there are.
    pub fn variables(&self) -> u32
        ensures value { result ≡ self.now.variables }
        ensures small { result ≤ 2 ^ 30 }
    {
        self.marks.len() as u32
    }

    /// The entry at a place.
    pub fn entry(&self, place: u32) -> Entry
        requires { place < length self.now.entries }
        ensures there { slice_get self.now.entries place ≡ Some result }
        ensures above { 0 < result.literal.variable }
        ensures within { result.literal.variable ≤ self.now.variables }
    {
        self.entries[place as usize]
    }

    /// Where the variable stands, if it has a value.
    pub fn place(&self, variable: u32) -> Option<u32>
        requires above { 0 < variable }
        requires within { variable ≤ self.now.variables }
        ensures { IsPlace self.now.entries variable result }
    {
        match self.marks[(variable - 1) as usize] {
            Some(mark) => Some(mark.place),
            None => None,
        }
    }

    /// Whether the literal is true, false or free.
    pub fn truth(&self, literal: Literal) -> Truth
        requires above { 0 < literal.variable }
        requires within { literal.variable ≤ self.now.variables }
        ensures { IsTruth self.now.entries literal result }
    {
        match self.marks[(literal.variable() - 1) as usize] {
            Some(mark) => {
                if mark.is_positive == literal.is_positive() {
                    Truth::True
                } else {
                    Truth::False
                }
            }
            None => Truth::Free,
        }
    }

    /// Makes a free literal true. After `NoMemory` nothing has changed.
    pub fn push(&mut self, literal: Literal, reason: Option<u32>) -> Result<(), NoMemory>
        requires above { 0 < literal.variable }
        requires within { literal.variable ≤ self.old.variables }
        requires free { FreeBefore self.old.entries (length self.old.entries) literal }
        ensures variables { self.new.variables ≡ self.old.variables }
        ensures entries { OnOk result (self.new.entries ≡ self.old.entries ++ record { literal = literal; reason = reason } ∷ []) }
        ensures room { OnOk result (length self.old.entries < self.old.variables) }
        ensures err { OnErr result (self.new.entries ≡ self.old.entries) }
    {
        let place = self.entries.len() as u32;
        self.entries.push(Entry { literal, reason })?;
        self.marks[(literal.variable() - 1) as usize] = Some(Mark {
            place,
            is_positive: literal.is_positive(),
        });
        Ok(())
    }

    /// Keeps the first entries alone.
    pub fn cut(&mut self, keep: u32)
        ensures variables { self.new.variables ≡ self.old.variables }
        ensures entries { self.new.entries ≡ take keep self.old.entries }
    {
        while self.entries.len() > keep as usize {
            if let Some(entry) = self.entries.pop() {
                self.marks[(entry.literal.variable() - 1) as usize] = None;
            }
        }
    }
}
