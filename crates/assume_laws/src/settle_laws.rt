//! When the two sides of a pair are settled together. None of these functions does anything: each contract is a law.

pub mod settles;
