//! The report of a comparison by ties of signals, as text.

mod text;
mod whole;

pub use whole::report;
