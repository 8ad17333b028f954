//! Runs of a given number of cycles from the latches' initial values, whatever the latches read. None of these functions does anything:
//! each contract is a law.

pub mod bounded;
pub mod samples;
