//! The jobs that report on circuits: the latch graph of one, its run over a stimulus, also behind the rows of another one, and the runs of two over one stimulus.
#![tactic(auto)]

pub mod job_replay;
pub mod replay;
mod reports;
mod sim_behind;

pub use reports::{Simulation, simulate, tell_graph};
pub use sim_behind::{SimulationBehind, simulate_behind};
