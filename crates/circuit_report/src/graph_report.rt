//! The report of a circuit's latch graph: sequential depths, and a cycle.
//!
//! What is reported of one circuit in a mode: its latch graph, or its run over a stimulus.

mod graphs;
mod report;
mod runs;
mod text;

pub use crate::sim_report::Misfit;
pub use graphs::tell;
pub use latch_kinds::KindsError;
pub use report::graph_report;
pub use runs::{SimulateError, simulate};
