//! What it means that an outcome fits two circuits, in the plain form and from the latches' initial values: what is found of each pair, and
//! what stands behind a limit. It has definitions alone.
#![tactic(auto)]

pub mod plain_meaning;

pub use obligations::{
    Obligation, PairName, PairResults, Queries, Stimulus, Verdict, Witness, copy_name,
};
pub use sec_setup::SetupError;
