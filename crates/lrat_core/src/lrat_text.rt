//! Texts in the LRAT format, checked against the clauses that they refute.
//!
//! The format is that of Cruz-Filipe, Heule, Hunt, Kaufmann and Schneider-Kamp, "Efficient certified RAT verification", 2017,
//! without its RAT steps.

mod addition;
mod checking;
mod laws;
mod line;
mod words;

pub use crate::dimacs_text::{Formula, LiteralLists, read_dimacs};
pub use checking::{Verified, check_lrat};
pub use laws::{accepted_is_unsatisfiable, accepted_text_is_met, text_has_one_verdict};
pub use text_numbers::{TextError, TextKind};
