//! Correspondences of the signals of two circuits: what each signal is tied to, and the laws of an induction over cycles by which ties
//! hold from the initial values on.

mod anchor;
pub mod laws;
pub mod sample;

pub use anchor::Anchor;
