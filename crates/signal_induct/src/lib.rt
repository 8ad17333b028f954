//! Two circuits compared from their initial values by ties of their signals that are an inductive invariant of both: the ties, the
//! outputs that they make equal, and the report.
#![tactic(auto)]

mod induction;
mod outputs;
pub mod signals_report;
mod ties;

pub use induction::{SignalInduction, induct_signals, induct_where};
pub use outputs::{TiedPair, TiedPairs, first_apart};
