//! What a comparison finds, and its report as text.

mod text;
mod verdict;

pub use pair_decide::{Aig, Decision, Proof, Query};
pub use text::report;
pub use verdict::{
    LimitAt, Outcome, PairResult, PairResults, ResetWitness, Separation, Separations, Unshown,
    Verdict, Why,
};
pub use witness_report::frame_report::{Frame, Spot, Spots};
pub use witness_report::{
    Bits, MAX_CONFLICTS, NoMemory, PairAnswer, PairName, Seq, Settings, Stimulus, Witness,
};
