//! What a job finds where a file of it isn't loaded.

mod ends;

pub use crate::sec_files::load;
pub use crate::{File, Finding, Refusal, Stop};
pub use ends::{load_end, stimulus_end};
