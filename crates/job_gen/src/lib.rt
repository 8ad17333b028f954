//! The job that makes a pair from a number and compares it, and the generated pairs themselves.
#![tactic(auto)]

pub mod gen_meaning;
mod generation;
pub mod pair_gen;

pub use gen_meaning::Generation;
pub use generation::compare_generated;
