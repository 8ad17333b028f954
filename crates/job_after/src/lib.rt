//! The job that searches two circuits for a difference behind the rows of a stimulus, whatever both power up with.
#![tactic(auto)]

mod after_report;
mod comparison;
mod fault;
mod judging;
mod last;
mod others;
mod reading;
mod searching;
mod shown;

pub use after_report::{put_after_verdict, put_begun};
pub use comparison::{AfterComparison, compare_after};
pub use fault::AfterFault;
pub use judging::{Judged, after_end, judgement_of, match_header, proofs_of};
pub use reading::{AfterPaths, ReadFiles, read_files};
pub use searching::{NetSearch, Start};
pub use shown::shown_of;
