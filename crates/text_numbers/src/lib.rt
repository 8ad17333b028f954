//! What texts of DIMACS and LRAT share: lines, tokens, whole numbers, and what can be wrong with a text.
#![tactic(auto)]

mod kinds;
mod lines;
mod numbers;
mod tokens;

pub use kinds::{TextError, TextKind};
pub use lines::{Lines, NumberedLines};
pub use numbers::{Halves, MAX_SIZE, Number, is_zero, number_of, read_numbers, split_at_zero};
pub use tokens::{Tokens, is_passed_over};
