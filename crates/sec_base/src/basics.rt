//! Small types that several crates share.

use base_lists::{Duplicate, Ids, NoMemory};
use circuit_theory::Side;
use std::alloc::Global;

/// The clock edge at which a latch loads, as the BLIF words `re` and `fe` say.
#[derive(Clone, Copy, PartialEq, Eq)]
pub enum Edge {
    Rising,
    Falling,
}

/// The initial value of a latch, as the BLIF digits `0`, `1`, `2` and `3` say.
#[derive(Clone, Copy, PartialEq, Eq)]
pub enum Init {
    Zero,
    One,
    DontCare,
    Unknown,
}

/// A latch of one of the two circuits, by its position there.
#[derive(Clone, Copy)]
pub struct Tag {
    pub side: Side,
    pub latch: u32,
}

/// What a comparison says of one pair of signals.
#[derive(Clone, Copy, PartialEq, Eq)]
pub enum PairAnswer {
    Equal,
    Different,
    NotShown,
    Limit,
}

/// The numbers of the inputs of both circuits, one for each input in its circuit's order.
#[derive(Drop)]
pub struct Orders {
    pub left: Ids,
    pub right: Ids,
}

impl Duplicate for Edge {
    fn duplicate(&self, _alloc: Global) -> Result<Edge, NoMemory> {
        Ok(*self)
    }
}

impl Duplicate for Init {
    fn duplicate(&self, _alloc: Global) -> Result<Init, NoMemory> {
        Ok(*self)
    }
}

impl Duplicate for Tag {
    fn duplicate(&self, _alloc: Global) -> Result<Tag, NoMemory> {
        Ok(*self)
    }
}

impl Duplicate for PairAnswer {
    fn duplicate(&self, _alloc: Global) -> Result<PairAnswer, NoMemory> {
        Ok(*self)
    }
}

impl Duplicate for Orders {
    fn duplicate(&self, _alloc: Global) -> Result<Orders, NoMemory> {
        Ok(Orders {
            left: self.left.copy()?,
            right: self.right.copy()?,
        })
    }
}
