//! Runs that begin with a sequence of inputs: what is known of the latches behind it, and what then holds of such runs from that cycle on.
//! None of these functions does anything: each contract is a law.

pub mod after;
pub mod samples;
