//! The jobs beside the check of two files: a pair that is made from a number, certificates for other tools, and comparing by blocks of
//! latches.
#![tactic(auto)]

pub mod job_induct;
pub mod job_search;
