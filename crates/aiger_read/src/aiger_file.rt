//! A file in the AIGER formats `aag` and `aig` as its records, or its first fault.
//!
//! The symbols of a file in the AIGER formats, and the names of its inputs, latches and outputs.

pub mod aiger_graph;
mod file;
mod naming;
mod reader;
mod symbol;

pub use crate::aiger_records::{AigerError, AigerKind};
pub use file::AigerFile;
pub use reader::read_file;
pub use symbol::{Named, Symbol, is_end, symbol_of};
