//! Pairs of latches that are to have one name.

ghost use Rattle.std.specs.Prelude.{◌≡◌, map, Contains, IfOk, IfErr, None};
ghost use Rattle.base_tables.specs.Table.{AreDistinct};
ghost use Rattle.net_names.specs.Renamed.{name_on, new_name};
ghost use Rattle.net_names.specs.Pairs.{IsTwice, HasLine};
ghost use Rattle.circuit_theory.specs.declared.Side.TheVariants.{A, B};

use flat_net::{NameTable, NoMemory, Side, Word};
use std::alloc::Global;
use std::marker::Model;

/// A latch of A and a latch of B that are to have one name, that of A's, and the number of the line that says so, from 1.
#[derive(Drop)]
pub struct LatchPair {
    pub line: u32,
    pub left: Word,
    pub right: Word,
}

/// Why pairs aren't taken.
#[derive(Clone, Copy)]
pub enum PairsError {
    /// The line with this number has a name that an earlier one has on the same side.
    Twice(u32),
    /// Memory was wanted and couldn't be had.
    NoMemory,
}

impl From<NoMemory> for PairsError {
    ghost use Rattle.net_names.specs.declared.latch_pairs.PairsError.TheVariants.{NoMemory};

    ghost from_gives = { λ _ e. e ≡ NoMemory };

    fn from(_error: NoMemory) -> PairsError {
        PairsError::NoMemory
    }
}

/// Pairs in which no name stands twice on a side. A contract sees the list of them.
pub struct LatchPairs {
    pairs: Vec<LatchPair>,
    lefts: NameTable,
    rights: NameTable,
}

/// It is let go by one call: an owner isn't taken apart field by field at each way out.
impl Drop for LatchPairs {
    fn drop(self) {
        let LatchPairs {
            pairs: _,
            lefts: _,
            rights: _,
        } = self;
    }
}

impl Model for LatchPairs {
    ghost use Rattle.std.specs.Prelude.{◌≡◌, List, map};
    ghost use Rattle.circuit_theory.specs.declared.Side.TheVariants.{A, B};
    ghost use Rattle.net_names.specs.declared.latch_pairs.LatchPair.{LatchPair};
    ghost use Rattle.net_names.specs.Renamed.{name_on};

    ghost Value = { List LatchPair };

    ghost view = { λ p. p.pairs.items };

    ghost invariant = { λ p. (p.lefts ≡ map (name_on A) p.pairs.items) × (p.rights ≡ map (name_on B) p.pairs.items) };
}

/// The pair's name of a latch of this side.
fn name_on(side: Side, pair: &LatchPair) -> &[u8]
    ensures { result.now ≡ name_on side pair.now }
{
    match side {
        Side::A => pair.left.as_slice(),
        Side::B => pair.right.as_slice(),
    }
}

/// The names of this side, where none stands twice.
fn table_of(alloc: Global, side: Side, pairs: &[LatchPair]) -> Result<NameTable, PairsError>
    ensures ok { IfOk result (λ names. names ≡ map (name_on side) pairs.now) }
    ensures err { IfErr result (IsTwice pairs.now) }
{
    let mut names = NameTable::new(alloc);
    for pair in pairs {
        if !names.add(alloc, name_on(side, pair))? {
            return Err(PairsError::Twice(pair.line));
        }
    }
    Ok(names)
}

impl LatchPairs {
    /// The pairs in their order, where no name stands twice on a side.
    pub fn new(alloc: Global, pairs: Vec<LatchPair>) -> Result<LatchPairs, PairsError>
        ensures ok { IfOk result (λ made. made ≡ pairs.items) }
        ensures err { IfErr result (IsTwice pairs.items) }
    {
        let lefts = table_of(alloc, Side::A, pairs.as_slice())?;
        let rights = table_of(alloc, Side::B, pairs.as_slice())?;
        Ok(LatchPairs {
            pairs,
            lefts,
            rights,
        })
    }

    /// Tells a proof that no name stands twice on a side. It does nothing.
    pub fn keeps(&self)
        ensures left { AreDistinct (map (name_on A) self.now) }
        ensures right { AreDistinct (map (name_on B) self.now) }
    {
        self.lefts.keeps();
        self.rights.keeps();
    }

    /// The pairs.
    pub fn as_slice(&self) -> &[LatchPair]
        ensures { result.now ≡ self.now }
    {
        self.pairs.as_slice()
    }

    /// The name that the latch of this name is to have.
    pub fn new_name<'a>(&'a self, name: &'a [u8]) -> &'a [u8]
        ensures { result.now ≡ new_name self.now name.now }
    {
        self.rights.keeps();
        match self.rights.find(name) {
            Some(id) => self.pairs[id as usize].left.as_slice(),
            None => name,
        }
    }

    /// The line of the pair whose first name this is.
    pub fn line_of(&self, left: &[u8]) -> u32
        requires { Contains (map (name_on A) self.now) left.now }
        ensures { HasLine self.now left.now result }
    {
        match self.lefts.find(left) {
            Some(id) => self.pairs[id as usize].line,
            None => 0,
        }
    }
}
