//! Whether two literals of an and-inverter graph agree: it is tried over a cut of few leaves, over windows and over the whole cones, by
//! tables and by searches, within a budget. What is answered holds under every assignment.

mod budget;
mod facts;
mod models;
mod proof;
mod question;
mod signs;
mod small;
mod table;

pub use aig::lane_eval::root_classes::{SignatureTable, leads_of, signatures, variables};
pub use budget::{Budget, Effort};
pub use pair_decide::{Decision, Query, SameBy, decide};
pub use proof::{Proved, prove};
pub(crate) use proof::{prove_by, prove_wholly};
pub use signs::{signed, zero};
pub use sweep_candidates::{Guide, Hints, Model};
