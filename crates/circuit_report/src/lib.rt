//! The report of one circuit: its run, in each mode, and the depths of its latches.
#![tactic(auto)]

pub mod graph_report;
pub mod sim_report;
