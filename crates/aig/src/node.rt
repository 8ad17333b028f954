//! Literals and nodes.

ghost use Rattle.std.specs.Prelude.{◌≡◌, ◌/◌, ◌%◌, IsTrue, ◌↔◌};

use sec_base::{Duplicate, NoMemory, Seq};
use std::alloc::Global;

/// A literal: twice a node's number, plus one where it stands for the node's complement, as in the AIGER format (Biere,
/// The AIGER And-Inverter Graph Format, 2007). So 0 is the constant 0, and 1 the constant 1.
#[derive(Clone, Copy, PartialEq, Eq)]
pub struct Lit(pub u32);

impl Lit {
    /// The constant 0.
    pub const FALSE: Lit = Lit(0);

    /// The constant 1.
    pub const TRUE: Lit = Lit(1);

    /// The number of the literal's node.
    pub fn node(self) -> u32
        ensures { result ≡ self.0 / 2 }
    {
        self.0 / 2
    }

    /// Whether the literal stands for its node's complement.
    pub fn is_complement(self) -> bool
        ensures { IsTrue result ↔ self.0 % 2 ≡ 1 }
    {
        self.0 % 2 == 1
    }
}

impl Duplicate for Lit {
    fn duplicate(&self, _alloc: Global) -> Result<Lit, NoMemory> {
        Ok(*self)
    }
}

/// Literals.
pub type Lits = Seq<Lit>;

/// A node of the graph. Nodes are numbered from 0; in a graph no node stands twice, and there are fewer than 2^30.
#[derive(Clone, Copy, PartialEq, Eq)]
pub enum Node {
    /// The constant 0, which has the number 0.
    Constant,
    /// A variable, by its number: at most 2^32 - 2. Numbers may be left out.
    Input(u32),
    /// The and of two literals of nodes with lower numbers, the lesser literal first.
    And(Lit, Lit),
}
