//! The simulation of a circuit on a stimulus, and its report.

mod checks;
mod columns;
mod cycles;
mod laws;
mod refusal;
mod report;
mod text;

pub use laws::has_simulation;
pub use refusal::Misfit;
pub use report::{misfit_of, sim_report};
