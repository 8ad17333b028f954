//! Walks over the hierarchy of a design: its flat statements over numbered flat names, or the first fault that the walk meets.
//!
//! A signal of the main model keeps its name. An instance of model `m` that is number `k` among those of the model around it puts `m#k#` before the names of its signals, behind the prefix of its own place.
#![tactic(auto)]

mod checks;
mod error;
mod flat;
mod hierarchy;
mod numbers;
mod scope;
mod tables;
mod walked;

pub use error::FlatError;
pub use flat::{Flat, FlatKind, FlatStatement, FlatStatements};
pub use hierarchy::walk;
