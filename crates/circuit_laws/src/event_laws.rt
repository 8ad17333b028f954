//! The laws of the event form, for circuits with latches that have a load enable, with their lemmas.

pub mod laws;
