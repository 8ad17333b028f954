//! Literals and clauses: what a clause is, what it is worth under an assignment, and how it is made of literals in any order.
#![tactic(auto)]

mod disjunction;
mod merge;
mod variables;

pub use disjunction::{Clause, ClauseError, Clauses};
pub use sec_base::{Bits, Ids, MAX_CONFLICTS, NoMemory, Seq};
pub use variables::{Literal, Literals};
