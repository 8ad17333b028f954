//! Comparing two circuits.

mod comparison;
mod interfaces;

pub use circuit_theory::Mode;
pub use comparison::{compare, compare_under};
pub use interfaces::interface;
pub use obligations::outcome::{
    Frame, LimitAt, Outcome, PairName, PairResult, PairResults, Proof, ResetWitness, Separation,
    Separations, Settings, Spot, Spots, Stimulus, Unshown, Verdict, Why, Witness, report,
};
pub use plain_check::CompareError;
