//! Latches with a load enable: whether what a latch takes over goes up with the latch itself.
//!
//! What a latch takes over is a function f of the inputs and latches of its cone. f0 and f1 are f with the latch itself at 0 and
//! at 1. Where no values give f0 = 1 and f1 = 0 the latch is enabled: it loads f0 where `f0 or not f1` holds, and else keeps its
//! value.

mod cone_literals;
mod facts;
mod laws;
mod reached_signals;
mod reads;
mod recovery;
mod sources;
mod support;
mod ways;

pub use facts::{NetFacts, facts_of};
pub use laws::cones_are_one;
pub use pair_decide::Proof;
pub use recovery::{RecoverError, Recovery, recover, recover_by};
pub use support::{LatchCone, cone};
