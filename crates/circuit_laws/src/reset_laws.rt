//! Runs that begin with the latches' initial values: the reset form and the laws that hold of it. None of these functions does
//! anything: each contract is a law.

pub mod class_extension;
pub mod induct_laws;
pub mod laws;
pub mod reset_nets;
