//! The texts of certificates: the clauses of a query in the DIMACS format, and a refutation of them in the LRAT format.

mod clauses;
mod hints;
mod known;
mod refutation;

pub use clauses::write_dimacs;
pub use refutation::write_lrat;
