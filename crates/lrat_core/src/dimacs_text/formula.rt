//! Clauses that a text gives.

ghost use Rattle.std.specs.Prelude.{◌≡◌, ◌≤◌, ◌^◌};

use proof_check::Literals;
use sec_base::Seq;
use std::marker::Model;

/// The most variables, and the most clauses, that a header can tell.
pub const MAX_COUNT: u32 = 1_073_741_824;

/// Clauses as they are written: literals in any order. The first has the number 1.
pub type LiteralLists = Seq<Literals>;

/// Clauses, and how many variables there are: at most 2^30.
#[derive(Drop)]
pub struct Formula {
    variables: u32,
    clauses: LiteralLists,
}

impl Model for Formula {
    ghost use Rattle.std.specs.Prelude.{◌≤◌, ◌^◌};
    ghost use Rattle.lrat_core.specs.dimacs_text.Formulas as words;

    ghost Value = { words.Formula };

    ghost view = { λ f. record { variables = f.variables; clauses = f.clauses } };

    ghost invariant = { λ f. f.variables ≤ 2 ^ 30 };
}

impl Formula {
    /// These clauses, and this number of variables, which is at most 2^30.
    pub fn new(variables: u32, clauses: LiteralLists) -> Formula
        requires { variables ≤ 2 ^ 30 }
        ensures { result ≡ record { variables = variables; clauses = clauses } }
    {
        Formula { variables, clauses }
    }

    /// The number of variables that the header tells.
    pub fn variables(&self) -> u32
        ensures value { result ≡ self.now.variables }
        ensures within { result ≤ 2 ^ 30 }
    {
        self.variables
    }

    /// The clauses in their order.
    pub fn clauses(&self) -> &LiteralLists
        ensures { result.now ≡ self.now.clauses }
    {
        &self.clauses
    }
}
