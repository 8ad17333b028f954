//! The laws of reset runs, for nets.

pub mod laws;
