//! What is found of two files that are compared, and where a job ends that fetches them. It has definitions and lemmas alone: the job itself
//! is done by `job_check`, and what its findings mean stands in `check_meaning`.

pub use job_base::sec_files::job_files::{File, Finding, Refusal, Stop, load, load_end};
