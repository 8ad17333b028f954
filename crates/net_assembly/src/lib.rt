//! A flat net while it is made of numbered statements: which numbers have signals so far, and what circuit the whole is; and circuits that
//! are one up to the numbers of their places. Definitions and lemmas alone; `flatten` makes the net.
//!
//! An order in which numbered signals can be evaluated, or a round of signals that read each other.
#![tactic(auto)]

pub mod net_alike;
mod search;

pub use search::{Found, order_of};
