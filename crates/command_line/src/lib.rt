//! The words of the command line, and the job that they ask for.
//!
//! The words are read with `clap` as a command `sec` with one required subcommand; what they mean is `clap`'s own
//! definition for this command.
#![tactic(auto)]

pub mod command_words;
mod jobs;
mod laws;
mod task;

pub use jobs::{WordsError, job};
pub use laws::{
    further_words_are_taken, jobs_are_allowed, refused_words_are_no_job, taken_words_are_job,
    taken_words_are_no_job, words_are_taken,
};
pub use sec_base::Settings;
pub use task::Task;
