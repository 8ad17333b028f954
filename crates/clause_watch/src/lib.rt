//! Clauses that watch two of their literals, the trail of what was made true, and unit propagation.
//!
//! A clause is visited only where a literal that it watches became false (Moskewicz and others, Chaff;
//! Een and Sorensson, MiniSat). That is enough: where all of the trail is propagated, no clause is false
//! or forces anything.
#![tactic(auto)]

mod clause_db;
mod clauses;
mod entry;
mod pair;
mod places;
mod propagation;
mod trail;
mod watched_clauses;
mod watchers;

pub use clause_base::{Bits, Clause, Clauses, Literal, MAX_CONFLICTS, NoMemory, Seq};
pub use clause_db::ClauseDb;
pub use entry::{Entry, Truth};
pub use places::Placed;
pub use propagation::Watches;
pub use trail::Trail;
pub use watched_clauses::WatchedClauses;
