//! The report of a search, as text.

mod text;
mod whole;

pub use text::{put_count_line, put_name, put_pairs, put_values, put_verdict};
pub use whole::{put_counts, put_front, report};
