//! Reads a file of the AIGER formats `aag` and `aig` as a flat net.
//!
//! The formats are those of the AIGER format, version 20071012, with the resets of version 1.9.
#![tactic(auto)]

pub mod aiger_file;
pub mod aiger_records;
mod assembly;
mod covers;
mod finish;
mod growth;
mod plan;
mod reader;

pub use crate::aiger_file::{AigerError, AigerKind};
pub use reader::read_aiger;
