//! The clauses that say that the outputs of one name of two circuits differ.

mod clauses;
mod error;
mod laws;
mod named;

pub use clauses::pair_clauses;
pub use error::CertError;
pub use laws::{one_encoding, one_text_encoding};
pub use pair_decide::cnf_encode::Cnf;
pub use plain_check::under_base::compare_base::CompareError;
