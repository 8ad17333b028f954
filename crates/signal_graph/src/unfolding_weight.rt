//! The weight of the unfoldings of signals, by the readings of their net.

mod weight;

pub use crate::graph::SignalGraph;
pub use crate::nodes::Node;
pub use weight::{Weight, weigh};
