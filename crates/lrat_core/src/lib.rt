//! The checker of clausal proofs by hints: each line adds a clause that its hints show, or takes clauses out.
//!
//! The proofs are those of the LRAT format (Cruz-Filipe, Heule, Hunt, Kaufmann and Schneider-Kamp, "Efficient certified RAT
//! verification", 2017) without its RAT steps. A text's numbers stand here already parsed; a number below 0 in the place of a
//! clause's number is put as 0, which no clause ever has.
#![tactic(auto)]

pub mod certificate_writer;
mod checker;
pub mod dimacs_text;
mod falsified;
mod hints;
mod laws;
mod line_error;
mod live;
mod looking;
pub mod lrat_text;

pub use checker::Checker;
pub use hints::Hint;
pub use laws::{accepted_is_unsatisfiable, logs_are_accepted, sequence_has_one_verdict};
pub use line_error::LineError;
