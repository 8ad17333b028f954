//! Queries and their answers.

use crate::cnf_encode::{Bits, Cnf, Ids, Log};
use aig::lane_eval::Lit;

/// Whether `left` and `right` agree wherever `care` holds.
#[derive(Drop)]
pub struct Query {
    pub left: Lit,
    pub right: Lit,
    pub care: Lit,
    /// Distinct variables, among them all that the three literals read.
    pub vars: Ids,
}

/// The clauses of a query, and a log of resolution chains over them.
pub struct Proof {
    pub cnf: Cnf,
    pub log: Log,
}

/// It is let go by one call: an owner isn't taken apart field by field at each way out.
impl Drop for Proof {
    fn drop(self) {
        let Proof { cnf: _, log: _ } = self;
    }
}

/// Why the sides of a query are the same.
#[derive(Drop)]
pub enum SameBy {
    /// They are one literal, or the care is the literal 0.
    Literal,
    /// All assignments of at most 16 variables were tried.
    Table,
    /// The clauses that say that they differ are refuted, and the refutation was checked.
    Refuted(Proof),
}

/// The answer to a query.
#[derive(Drop)]
pub enum Decision {
    Same(SameBy),
    /// A bit for each variable, under which the care holds and the sides differ. For at most 16 variables it is the least
    /// such assignment, the first variable's bit being the lowest.
    Differs(Bits),
    /// As many chains as conflicts were allowed, each of which tells unit propagation something, with no end.
    Limit(Proof),
}
