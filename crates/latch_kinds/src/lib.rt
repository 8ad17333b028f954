//! What each latch of a net is in a mode: whether it has a load enable.
#![tactic(auto)]

pub mod enable_laws;
mod kinds;
pub mod unate_enable;

pub use kinds::{KindsError, LatchKinds, kinds_in};
pub use unate_enable::Proof;
