//! The depths of signals, and the order in which the enabled latches of two circuits are given classes: by sequential depth, where
//! self-edges of enabled latches don't count, then the first circuit before the second, then by position.

mod depths;
mod tags;
mod turns;

pub use depths::{have_depths, signal_depths};
pub use tags::latch_order;
