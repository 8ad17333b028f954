//! What a comparison of two circuits answers, and what each answer says of them; how the answers are found is no matter here.

mod error;

pub use error::CompareError;
