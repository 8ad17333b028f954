//! A minimal cut among pairs of latches of two graphs: each pair in turn is put back, where that closes no cycle.

pub mod graph_components;
mod marks;
mod readers;
mod trial;
mod walk;

pub use trial::chosen;
