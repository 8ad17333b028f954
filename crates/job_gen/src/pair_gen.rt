//! Generated pairs: two circuits of one function that the words of a seed decide.

mod cells;
mod kinds;
mod sketch;
mod twins;
mod words;

pub use cells::Cell;
pub use kinds::{Kind, rows_spell_functions};
pub use twins::{Twins, generate};
