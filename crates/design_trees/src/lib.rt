//! Nets that are one up to the numbers of their signals have one function tree at each place that is read, by the names of their inputs. It
//! does nothing: its contract is a law.
#![tactic(auto)]

mod laws;

pub use laws::trees_are_one;
