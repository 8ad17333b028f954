//! Whether both sides of a pair have care together in some frame, in the event form, with an assumption on the inputs and without one.
#![tactic(auto)]

mod cares;
mod deciding;
mod idle;
mod settling;
mod telling;

pub use cares::{Care, IdleLatch, PairCare, PairCares};
pub use settling::{settle_pairs, settle_pairs_under};
