//! The jobs on certificates for other tools: the clauses that say that a pair of outputs differs, or their refutation, are made; and such
//! a refutation is checked.
#![tactic(auto)]

mod certificate;
pub mod job_lrat;
mod making;
pub mod pair_clauses;

pub use certificate::{Certification, certify};
pub use making::Wanted;
