//! The job that checks a refutation: clauses in the DIMACS format, and a text in the LRAT format that shows that they can't be met.

mod loading;
mod refutation;

pub use loading::{TextLoadError, load_clauses};
pub use refutation::{Refutation, check_refutation};
