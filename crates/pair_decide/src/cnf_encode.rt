//! The clauses of a query: they can be met exactly where its two sides differ under its care.

mod cnf;
mod encoding;

pub use cnf::Cnf;
pub use encoding::encode;
pub use proof_check::{Bits, Clauses, Ids, Log, MAX_CONFLICTS, NoMemory, ProofError, check_log};
