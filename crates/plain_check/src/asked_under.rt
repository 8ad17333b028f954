//! What is asked of pairs under an assumption, decided, and shown by a sequence that meets it: by cycles over all power-ups, and from
//! initial values.

mod differences;
mod error;
pub mod plain_asked_under;
pub mod reset_asked_under;

pub use error::CompareUnderError;
