//! The top call of `sec`: words, files and a place for the report come in, a status comes out.
#![tactic(auto)]

mod calls;

pub use calls::{run, run_job};
pub use job_base::{Proofs, Status, StatusName};
