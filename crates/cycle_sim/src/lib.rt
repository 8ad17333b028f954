//! Simulation of a flat net cycle by cycle: the run from a power-up, and which signals are settled.
#![tactic(auto)]

mod cycle_marks;
mod cycles;
mod flip;
mod initial_values;
mod laws;
mod load;
mod marked;
mod next_marks;
pub mod pair_runs;
mod power;
mod sim;

pub use laws::{has_run, resets};
pub use marked::MarkedSim;
pub use power::Power;
pub use sim::Sim;
