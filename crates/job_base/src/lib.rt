//! What a job finds, how it ends, and the report that is written of it.
#![tactic(auto)]

pub mod design_laws;
mod end;
mod finding;
pub mod sec_files;
mod status;
mod text;

pub use end::{finish, proofs_of};
pub use finding::{
    File, Finding, Judgement, LineFault, PairKind, PairsFault, Refusal, Stop, Unrefuted,
};
pub use status::{Proofs, Status, StatusName};
